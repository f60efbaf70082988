//! The tape and the summary, by worked values and by a plain model in Python.

use quick_commands::draws::next_draw;
use quick_commands::generator::{Generator, generate};
use quick_commands::summary::Summary;
use sha2::{Digest, Sha256};

/// The records of the tape of the seed 1 and two tasks, as an independent model writes them.
const RECORDS: [&[u8]; 11] = [
    b"\x01\x00\x00\x00\x00\x00\x00\x00\x00\x00\x00\x00\x00\x00\x00\x00\x00\x00\x00\x00\x01\x03\x01\x02e0",
    b"\x06\x00\x00\x00\x00\x00\x00\x00\x00\x00\x00\x00\x00\x00\x00\x00\x00\x00\x00\x00\x01\x06\x00\x00\x00\t<IDS|MSG>\x00\x00\x00@4e433e9bcf899be6ee2aef6cc440960a7fc95683601fbffab3de7fa035d66c98\x00\x00\x00\x84{\"msg_id\":\"e0-0\",\"session\":\"e0\",\"username\":\"e0\",\"date\":\"1970-01-01T00:00:00.000Z\",\"msg_type\":\"registration_request\",\"version\":\"5.3\"}\x00\x00\x00\x02{}\x00\x00\x00\x02{}\x00\x00\x00\x0d{\"uuid\":\"e0\"}",
    b"\x01\x00\x00\x00\x00\x00\x00\x00\x00\x00\x00\x00\x00\x00\x00\x00\x00\x00\x00\x00\x02\x03\x01\x02e1",
    b"\x06\x00\x00\x00\x00\x00\x00\x00\x00\x00\x00\x00\x00\x00\x00\x00\x00\x00\x00\x00\x02\x06\x00\x00\x00\t<IDS|MSG>\x00\x00\x00@46a1d23bc5b40381a141ecf2ea7b598af42e7717abfef5b1a332cd1b8675d9b0\x00\x00\x00\x84{\"msg_id\":\"e1-0\",\"session\":\"e1\",\"username\":\"e1\",\"date\":\"1970-01-01T00:00:00.000Z\",\"msg_type\":\"registration_request\",\"version\":\"5.3\"}\x00\x00\x00\x02{}\x00\x00\x00\x02{}\x00\x00\x00\x0d{\"uuid\":\"e1\"}",
    b"\x01\x00\x00\x00\x00\x00\x00\x00\x00\x00\x00\x00\x00\x00\x00\x00\x00\x00\x00\x00\x03\x03\x01\x02e2",
    b"\x06\x00\x00\x00\x00\x00\x00\x00\x00\x00\x00\x00\x00\x00\x00\x00\x00\x00\x00\x00\x03\x06\x00\x00\x00\t<IDS|MSG>\x00\x00\x00@8a7e56f628b1a54c8b9445e6523ef8dcde4805c9cf28978a24a552bd22f7ec65\x00\x00\x00\x84{\"msg_id\":\"e2-0\",\"session\":\"e2\",\"username\":\"e2\",\"date\":\"1970-01-01T00:00:00.000Z\",\"msg_type\":\"registration_request\",\"version\":\"5.3\"}\x00\x00\x00\x02{}\x00\x00\x00\x02{}\x00\x00\x00\x0d{\"uuid\":\"e2\"}",
    b"\x01\x00\x00\x00\x00\x00\x00\x00\x00\x00\x00\x00\x00\x00\x00\x00\x00\x00\x00\x00\x04\x03\x01\x02e3",
    b"\x06\x00\x00\x00\x00\x00\x00\x00\x00\x00\x00\x00\x00\x00\x00\x00\x00\x00\x00\x00\x04\x06\x00\x00\x00\t<IDS|MSG>\x00\x00\x00@dc3910baffd213af8d00590fe40d21509efdd37d23959d4f9fac61ce83671749\x00\x00\x00\x84{\"msg_id\":\"e3-0\",\"session\":\"e3\",\"username\":\"e3\",\"date\":\"1970-01-01T00:00:00.000Z\",\"msg_type\":\"registration_request\",\"version\":\"5.3\"}\x00\x00\x00\x02{}\x00\x00\x00\x02{}\x00\x00\x00\x0d{\"uuid\":\"e3\"}",
    b"\x01\x00\x00\x00\x00\x00\x00\x00\x00\x00\x00\x00\x00\x00\x00\x00\x00\x00\x00\x00\x05\x01\x01\x06client",
    b"\x06\x00\x00\x00\x00\x00\x00\x00\x00\x00\x00\x00\x00\x00\x00\x00\x00\x00\x00\x00\x05\x06\x00\x00\x00\t<IDS|MSG>\x00\x00\x00@9a1602950a57d2d241f47b0b385c1418c3ee23a3facbc0fde28e65958f0eea95\x00\x00\x00\x81{\"msg_id\":\"t1\",\"session\":\"work\",\"username\":\"work\",\"date\":\"1970-01-01T00:00:00.000Z\",\"msg_type\":\"execute_request\",\"version\":\"5.3\"}\x00\x00\x00\x02{}\x00\x00\x00\x02{}\x00\x00\x00u{\"code\":\"590+527\",\"silent\":false,\"store_history\":true,\"user_expressions\":{},\"allow_stdin\":false,\"stop_on_error\":true}",
    b"\x06\x00\x00\x00\x00\x00\x00\x00\x00\x00\x00\x00\x00\x00\x00\x00\x00\x00\x00\x00\x05\x06\x00\x00\x00\t<IDS|MSG>\x00\x00\x00@29bd4e98c90aff0eadefb6fd089429f966c67e0874547581b6dab76cad012991\x00\x00\x00\x81{\"msg_id\":\"t2\",\"session\":\"work\",\"username\":\"work\",\"date\":\"1970-01-01T00:00:00.000Z\",\"msg_type\":\"execute_request\",\"version\":\"5.3\"}\x00\x00\x00\x02{}\x00\x00\x00\x02{}\x00\x00\x00u{\"code\":\"575+401\",\"silent\":false,\"store_history\":true,\"user_expressions\":{},\"allow_stdin\":false,\"stop_on_error\":true}",
];

/// Seeds, numbers of tasks, and the SHA-256 digest of the tape, as an independent model makes it.
const DIGESTS: &[(u32, u32, &str)] = &[
    (
        0,
        0,
        "46d6d4b4d12b40f77e86bd092f3be6028d080aa79999fa96e0b68279dbd83ecb",
    ),
    (
        1,
        9,
        "b2e86a9aa6a82e1fe595031dca01877efe238afba88a43df577d2f5d9b126754",
    ),
    (
        2_147_483_647,
        120,
        "f1a088e768ae27fc1ecd32a473ff1c6544bb4df164bead5861d076f33d219520",
    ),
];

#[test]
fn draws(rt: HostRuntime) {
    for (number, drawn) in [(1, 1_103_527_590), (1_103_527_590, 377_401_575)] {
        assert_eq!(rt; next_draw(number), drawn);
    }
}

#[test]
fn two_tasks(rt: HostRuntime) {
    let mut expected = Vec::new(rt.alloc());
    for record in RECORDS {
        expected
            .extend_from_slice(record)
            .expect(&rt, "memory is ample");
    }
    assert_eq!(rt;
        generate(rt.alloc(), 1, 2)
            .expect(&rt, "memory is ample")
            .as_slice(),
        expected.as_slice()
    );
}

#[test]
fn one_by_one(rt: HostRuntime) {
    let mut generator = Generator::new(rt.alloc(), 1, 2).expect(&rt, "memory is ample");
    for turn in 0..13 {
        assert_eq!(rt;
            generator.next().expect(&rt, "memory is ample").is_some(),
            turn < RECORDS.len()
        );
    }
}

#[test]
fn digests(rt: HostRuntime) {
    for (seed, tasks, digest) in DIGESTS {
        assert!(rt; *seed < 2_147_483_648 && *tasks <= 500_000);
        let octets = generate(rt.alloc(), *seed, *tasks).expect(&rt, "memory is ample");
        let hashed = hex::encode(rt.alloc(), &Sha256::digest(octets.as_slice())).expect(
            &rt,
            "memory is ample",
        );
        assert_eq!(rt; hashed.as_str(), *digest);
    }
}

#[test]
fn summary(rt: HostRuntime) {
    let summary = Summary {
        tasks: 2,
        completed: 2,
        failed: 0,
        hands: 2,
        entries: 18,
        sum: 2093,
    };
    let lines = summary.lines(rt.alloc()).expect(&rt, "memory is ample");
    assert_eq!(rt;
        lines.as_str(),
        "tasks 2\ncompleted 2\nfailed 0\nhands 2\nentries 18\nsum 2093\n"
    );
}
