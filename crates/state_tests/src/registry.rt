//! Engines in a registry: found, marked, missed and ended.

use crate::common::text;
use cluster_defs::engine::Engine;
use engine_registry::registry::Registry;
use std::alloc::Global;
use std::process::Abort;

fn engine<R: Abort>(rt: &R, alloc: Global, number: u32, conn: u32, uuid: &str) -> Engine {
    Engine {
        number,
        conn,
        uuid: text(rt, alloc, uuid),
        mark: 0,
    }
}

fn push<R: Abort>(rt: &R, registry: &mut Registry, engine: Engine) {
    registry.push(engine).expect(rt, "memory is ample");
}

/// The engines 2 and 4, on connections of their own.
fn two_apart<R: Abort>(rt: &R, alloc: Global) -> Registry {
    let mut registry = Registry::new(alloc);
    push(rt, &mut registry, engine(rt, alloc, 2, 7, "a"));
    push(rt, &mut registry, engine(rt, alloc, 4, 9, "b"));
    registry
}

/// The engines 0 and 1, both on connection 5 and of one uuid.
fn two_on_one<R: Abort>(rt: &R, alloc: Global) -> Registry {
    let mut registry = Registry::new(alloc);
    push(rt, &mut registry, engine(rt, alloc, 0, 5, "a"));
    push(rt, &mut registry, engine(rt, alloc, 1, 5, "a"));
    registry
}

fn number_named(registry: &Registry, uuid: &[u8]) -> Option<u32> {
    match registry.named(uuid) {
        Some(engine) => Some(engine.number),
        None => None,
    }
}

fn number_missing(registry: &Registry, misses: u32, beats: u64) -> Option<u32> {
    match registry.missing(misses, beats) {
        Some(engine) => Some(engine.number),
        None => None,
    }
}

#[test]
fn engines_are_found(rt: HostRuntime) {
    let registry = two_apart(&rt, rt.alloc());
    assert!(rt; registry.len() == 2 && registry.as_slice().len() == 2);
    assert!(rt; registry.on(7).is_some() && registry.number_on(9) == Some(4));
    assert!(rt;
        number_named(&registry, b"b") == Some(4) && number_named(&registry, b"c").is_none()
    );
    assert!(rt; number_named(&registry, b"\xff").is_none());
    assert!(rt; registry.conn_of(2) == Some(7) && registry.conn_of(3).is_none());
    assert!(rt; registry.is_live(4) && !registry.is_live(0) && !registry.is_live(5));
}

#[test]
fn an_engine_ends(rt: HostRuntime) {
    let mut registry = two_apart(&rt, rt.alloc());
    registry.end(2);
    assert!(rt; registry.on(7).is_none() && registry.number_on(9) == Some(4));
    assert!(rt; !registry.is_live(2) && registry.is_live(4));
    push(&rt, &mut registry, engine(&rt, rt.alloc(), 5, 7, "a"));
    assert!(rt; registry.number_on(7) == Some(5) && number_named(&registry, b"a") == Some(5));
    registry.clear();
    assert!(rt; registry.on(9).is_none() && !registry.is_live(4) && registry.len() == 0);
}

#[test]
fn the_first_of_two_is_found(rt: HostRuntime) {
    let mut registry = two_on_one(&rt, rt.alloc());
    assert!(rt; registry.number_on(5) == Some(0) && number_named(&registry, b"a") == Some(0));
    registry.mark(5, 3);
    assert!(rt; !registry.raises(5, 3) && registry.raises(5, 4));
    registry.end(0);
    assert!(rt; registry.number_on(5) == Some(1) && number_named(&registry, b"a") == Some(1));
    assert!(rt; !registry.raises(5, 3));
}

#[test]
fn an_engine_misses_beats(rt: HostRuntime) {
    let mut registry = two_apart(&rt, rt.alloc());
    registry.mark(7, 2);
    registry.refresh();
    assert!(rt; number_missing(&registry, 2, 2).is_none());
    assert!(rt; number_missing(&registry, 2, 3) == Some(4));
    registry.mark(9, 3);
    registry.refresh();
    assert!(rt; number_missing(&registry, 2, 4).is_none());
    assert!(rt; number_missing(&registry, 2, 5) == Some(2));
}
