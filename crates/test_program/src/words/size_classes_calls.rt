//! The heap's table of nine sizes, and a table of six.
use crate::words::same::same;
use heap_words::classes::{Classes, heap_classes, reserve};
use std::process::Abort;

// Words of a block, and the class and its words that both tables give.
const ROWS: [(usize, usize, usize); 12] = [
    (3, 0, 4),
    (4, 0, 4),
    (5, 1, 8),
    (8, 1, 8),
    (9, 2, 16),
    (16, 2, 16),
    (17, 3, 32),
    (32, 3, 32),
    (33, 4, 64),
    (64, 4, 64),
    (65, 5, 128),
    (128, 5, 128),
];

// The same code over a table of six sizes.
const SIX: Classes<6> = Classes {
    sizes: [4, 8, 16, 32, 64, 128],
};

fn check<const C: usize>(rt: &impl Abort, classes: &Classes<C>) {
    for (words, class, size) in &ROWS {
        same(&rt, classes.class_of(*words), Some(*class));
        if *class < C {
            same(&rt, classes.words_of(*class), *size);
        }
    }
}

#[test]
fn each_size_has_its_class(rt: HostRuntime) {
    let nine = heap_classes();
    check(&rt, &nine);
    same(&rt, nine.class_of(129), Some(6));
    same(&rt, nine.class_of(1024), Some(8));
    same(&rt, nine.class_of(1025), None);
    same(&rt, nine.words_of(7), 512);
    check(&rt, &SIX);
    same(&rt, SIX.class_of(129), None);
}

#[test]
fn reserve_covers_minor_areas(rt: HostRuntime) {
    same(&rt, reserve(1, 4096), 10);
    same(&rt, reserve(2, 32768), 34);
    same(&rt, reserve(8, 65536), 200);
}
