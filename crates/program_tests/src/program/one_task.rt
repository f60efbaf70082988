//! The tape of one task, and what an independent model of the controller made of it.

/// An engine joins, a client sends the task `a`, and the engine replies, signed under the key `k`.
pub const TAPE: &[u8] = b"\
    \x01\0\0\0\0\0\0\0\0\0\0\0\0\0\0\0\0\0\0\0\x01\x03\x01\x01e\
    \x06\0\0\0\0\0\0\0\0\0\0\0\0\0\0\0\0\0\0\0\x01\x06\0\0\0\x09<IDS|MSG>\0\0\0@d2f52e7ee3d1bb065641\
    57fe40e43ed04a1d7379b14330f3fc557ded7a84af38\0\0\06{\"msg_id\":\"join-e0\",\"msg_type\":\"regist\
    ration_request\"}\0\0\0\x02{}\0\0\0\x02{}\0\0\0\x0d{\"uuid\":\"e0\"}\
    \x01\0\0\0\0\0\0\0\0\0\0\0\0\0\0\0\0\0\0\0\x02\x01\x01\x01c\
    \x06\0\0\0\0\0\0\0\0\0\0\0\0\0\0\0\0\0\0\0\x02\x06\0\0\0\x09<IDS|MSG>\0\0\0@869cf3a0adf8201e285e\
    6b6dadd3139f73a97c417b5c38e27ce23d08cabbed7b\0\0\0+{\"msg_id\":\"a\",\"msg_type\":\"execute_requ\
    est\"}\0\0\0\x02{}\0\0\0\x02{}\0\0\0\x0e{\"code\":\"6*7\"}\
    \x06\0\0\0\0\0\0\0\0\0\0\0\0\0\0\0\0\0\0\0\x01\x06\0\0\0\x09<IDS|MSG>\0\0\0@de5b25572dc285bf4cf3\
    1f5fda86cd2905ad66ec302b0a3b6c0f876d16318646\0\0\0*{\"msg_id\":\"r1\",\"msg_type\":\"execute_rep\
    ly\"}\0\0\0\x0e{\"msg_id\":\"a\"}\0\0\0\x02{}\0\0\0\x0f{\"status\":\"ok\"}\
    ";

/// What is sent: the answer to the engine, the task, and the reply.
pub const OUTPUT: &[u8] = b"\
    \x06\0\0\0\0\0\0\0\0\0\0\0\0\0\0\0\0\0\0\0\x01\x06\0\0\0\x09<IDS|MSG>\0\0\0@76e74755ddc98f44d232\
    903bd0e988e993714181840da7c8b46d2f24aa6324b2\0\0\0\x95{\"msg_id\":\"hub-1-2\",\"session\":\"cont\
    roller\",\"username\":\"controller\",\"date\":\"1970-01-01T00:00:00.000Z\",\"msg_type\":\"regist\
    ration_reply\",\"version\":\"5.3\"}\0\0\06{\"msg_id\":\"join-e0\",\"msg_type\":\"registration_re\
    quest\"}\0\0\0\x02{}\0\0\0\x16{\"status\":\"ok\",\"id\":0}\
    \x06\0\0\0\0\0\0\0\0\0\0\0\0\0\0\0\0\0\0\0\x01\x06\0\0\0\x09<IDS|MSG>\0\0\0@869cf3a0adf8201e285e\
    6b6dadd3139f73a97c417b5c38e27ce23d08cabbed7b\0\0\0+{\"msg_id\":\"a\",\"msg_type\":\"execute_requ\
    est\"}\0\0\0\x02{}\0\0\0\x02{}\0\0\0\x0e{\"code\":\"6*7\"}\
    \x06\0\0\0\0\0\0\0\0\0\0\0\0\0\0\0\0\0\0\0\x02\x06\0\0\0\x09<IDS|MSG>\0\0\0@de5b25572dc285bf4cf3\
    1f5fda86cd2905ad66ec302b0a3b6c0f876d16318646\0\0\0*{\"msg_id\":\"r1\",\"msg_type\":\"execute_rep\
    ly\"}\0\0\0\x0e{\"msg_id\":\"a\"}\0\0\0\x02{}\0\0\0\x0f{\"status\":\"ok\"}\
    ";

/// The entries that are kept of it.
pub const ENTRIES: &[u8] = b"\
open 0 leastload 1 10
up 1 engine 0 0 65
in 1 0 0 - 7b226d73675f6964223a226a6f696e2d6530222c226d73675f74797065223a22726567697374726174696f6e5f72657175657374227d 7b7d 7b7d 7b2275756964223a226530227d
up 2 task 0 0 63
in 2 0 0 - 7b226d73675f6964223a2261222c226d73675f74797065223a22657865637574655f72657175657374227d 7b7d 7b7d 7b22636f6465223a22362a37227d
hand 61 0
in 1 0 0 - 7b226d73675f6964223a227231222c226d73675f74797065223a22657865637574655f7265706c79227d 7b226d73675f6964223a2261227d 7b7d 7b22737461747573223a226f6b227d
settle 61 completed Reply
";

/// The same engine joins, and the client sends the task `b`, which is never answered.
pub const OTHER: &[u8] = b"\
    \x01\0\0\0\0\0\0\0\0\0\0\0\0\0\0\0\0\0\0\0\x01\x03\x01\x01e\
    \x06\0\0\0\0\0\0\0\0\0\0\0\0\0\0\0\0\0\0\0\x01\x06\0\0\0\x09<IDS|MSG>\0\0\0@d2f52e7ee3d1bb065641\
    57fe40e43ed04a1d7379b14330f3fc557ded7a84af38\0\0\06{\"msg_id\":\"join-e0\",\"msg_type\":\"regist\
    ration_request\"}\0\0\0\x02{}\0\0\0\x02{}\0\0\0\x0d{\"uuid\":\"e0\"}\
    \x01\0\0\0\0\0\0\0\0\0\0\0\0\0\0\0\0\0\0\0\x02\x01\x01\x01c\
    \x06\0\0\0\0\0\0\0\0\0\0\0\0\0\0\0\0\0\0\0\x02\x06\0\0\0\x09<IDS|MSG>\0\0\0@febe5e415490541825c1\
    30f58c53ad2c344709f15848a9e51a3a8ee025bd2158\0\0\0+{\"msg_id\":\"b\",\"msg_type\":\"execute_requ\
    est\"}\0\0\0\x02{}\0\0\0\x02{}\0\0\0\x0c{\"code\":\"1\"}\
    ";

/// What is sent for the tape of one task behind the other one: all but the first message is as above.
pub const OUTPUT_BEHIND: &[u8] = b"\
    \x06\0\0\0\0\0\0\0\0\0\0\0\0\0\0\0\0\0\0\0\x01\x06\0\0\0\x09<IDS|MSG>\0\0\0@004adb66988400c7ca71\
    a9ce74195d6f1d5c6805ab6f55203fc9633cfa2feaaf\0\0\0\x95{\"msg_id\":\"hub-2-3\",\"session\":\"cont\
    roller\",\"username\":\"controller\",\"date\":\"1970-01-01T00:00:00.000Z\",\"msg_type\":\"regist\
    ration_reply\",\"version\":\"5.3\"}\0\0\06{\"msg_id\":\"join-e0\",\"msg_type\":\"registration_re\
    quest\"}\0\0\0\x02{}\0\0\0\x16{\"status\":\"ok\",\"id\":1}\
    \x06\0\0\0\0\0\0\0\0\0\0\0\0\0\0\0\0\0\0\0\x01\x06\0\0\0\x09<IDS|MSG>\0\0\0@869cf3a0adf8201e285e\
    6b6dadd3139f73a97c417b5c38e27ce23d08cabbed7b\0\0\0+{\"msg_id\":\"a\",\"msg_type\":\"execute_requ\
    est\"}\0\0\0\x02{}\0\0\0\x02{}\0\0\0\x0e{\"code\":\"6*7\"}\
    \x06\0\0\0\0\0\0\0\0\0\0\0\0\0\0\0\0\0\0\0\x02\x06\0\0\0\x09<IDS|MSG>\0\0\0@de5b25572dc285bf4cf3\
    1f5fda86cd2905ad66ec302b0a3b6c0f876d16318646\0\0\0*{\"msg_id\":\"r1\",\"msg_type\":\"execute_rep\
    ly\"}\0\0\0\x0e{\"msg_id\":\"a\"}\0\0\0\x02{}\0\0\0\x0f{\"status\":\"ok\"}\
    ";

/// The entries that are kept of the other tape, and then of the tape of one task.
pub const ENTRIES_BEHIND: &[u8] = b"\
open 0 leastload 1 10
up 1 engine 0 0 65
in 1 0 0 - 7b226d73675f6964223a226a6f696e2d6530222c226d73675f74797065223a22726567697374726174696f6e5f72657175657374227d 7b7d 7b7d 7b2275756964223a226530227d
up 2 task 0 0 63
in 2 0 0 - 7b226d73675f6964223a2262222c226d73675f74797065223a22657865637574655f72657175657374227d 7b7d 7b7d 7b22636f6465223a2231227d
hand 62 0
open 0 leastload 1 10
settle 62 failed EngineError
up 1 engine 0 0 65
in 1 0 0 - 7b226d73675f6964223a226a6f696e2d6530222c226d73675f74797065223a22726567697374726174696f6e5f72657175657374227d 7b7d 7b7d 7b2275756964223a226530227d
up 2 task 0 0 63
in 2 0 0 - 7b226d73675f6964223a2261222c226d73675f74797065223a22657865637574655f72657175657374227d 7b7d 7b7d 7b22636f6465223a22362a37227d
hand 61 1
in 1 0 0 - 7b226d73675f6964223a227231222c226d73675f74797065223a22657865637574655f7265706c79227d 7b226d73675f6964223a2261227d 7b7d 7b22737461747573223a226f6b227d
settle 61 completed Reply
";
