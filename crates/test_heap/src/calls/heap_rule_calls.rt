//! The start and the end of a heap, and what a domain tells of itself.
use crate::calls::fixtures::same;
use heap_rule::{Config, Heap, Part, StartFault};
use heap_words::Value;
use std::test::Fail;

const SMALL: Config = Config {
    domains: 2,
    minor_words: 4096,
    pools: 39,
    finals: 10,
    ephes: 20,
};

// Configurations with one field outside its limit, and which field that is.
const OUTSIDE: [(Config, u32); 8] = [
    (
        Config {
            domains: 0,
            ..SMALL
        },
        1,
    ),
    (
        Config {
            domains: 9,
            ..SMALL
        },
        1,
    ),
    (
        Config {
            minor_words: 5000,
            ..SMALL
        },
        2,
    ),
    (
        Config {
            minor_words: 69632,
            ..SMALL
        },
        2,
    ),
    (Config { pools: 38, ..SMALL }, 3),
    (
        Config {
            pools: 2049,
            ..SMALL
        },
        3,
    ),
    (
        Config {
            finals: 200_001,
            ..SMALL
        },
        4,
    ),
    (
        Config {
            ephes: 200_001,
            ..SMALL
        },
        5,
    ),
];

#[test]
fn faults_have_their_texts(rt: HostRuntime) -> Result<(), Fail> {
    let field = format!(in rt.alloc(); "{}", StartFault::Config(2))?;
    same(&rt, field.as_str(), "config field 2");
    let memory = format!(in rt.alloc(); "{}", StartFault::Memory)?;
    same(&rt, memory.as_str(), "out of memory");
    Ok(())
}

#[test]
fn a_field_outside_its_limit_is_named(rt: HostRuntime) {
    for (config, field) in &OUTSIDE {
        let fault = Heap::start(rt.alloc(), *config).err();
        same(&rt, fault, Some(StartFault::Config(*field)));
    }
}

#[test]
fn a_heap_starts_and_stops(rt: HostRuntime) -> Result<(), Fail> {
    let (heap, domains) = Heap::start(rt.alloc(), SMALL)?;
    same(&rt, domains.len(), 2);
    let domain = &domains[1];
    same(&rt, domain.number(), 1);
    same(&rt, domain.register(0), Value::Ref(1));
    same(&rt, domain.register(15), Value::Nothing);
    same(&rt, domain.queued(), 0);
    same(&rt, domain.finals_room(), 10);
    same(&rt, domain.ephes_room(), 20);
    same(&rt, domain.area_used(), 0);
    same(&rt, domain.arrivals(), 0);
    same(&rt, domain.labels_made(), 0);
    same(&rt, domain.part_len(Part::Register), 16);
    same(&rt, domain.part_at(Part::Register, 0).value, Value::Ref(1));
    let ended = heap.stop(domains);
    ended.shows_legal();
    Ok(())
}
