// Small pools.

use crate::pools::Pool;

/// What there is about a pool, the pool, and the places of its rows once no gap is left.
pub type Case<'a> = (&'a str, Pool<'a>, &'a [u64]);

pub static CASES: [Case<'static>; 10] = [
    (
        "the table alone stands above a gap",
        Pool {
            size: 40,
            base: 4,
            table: 20,
            lists: &[],
        },
        &[4],
    ),
    (
        "there is no gap",
        Pool {
            size: 64,
            base: 8,
            table: 8,
            lists: &[(40, 1, 5), (48, 2, 2)],
        },
        &[8, 40, 48],
    ),
    (
        "one gap below one block",
        Pool {
            size: 64,
            base: 8,
            table: 8,
            lists: &[(40, 1, 4), (52, 2, 4)],
        },
        &[8, 40, 44],
    ),
    (
        "one gap below all blocks",
        Pool {
            size: 60,
            base: 8,
            table: 12,
            lists: &[(44, 1, 4), (48, 2, 4)],
        },
        &[8, 40, 44],
    ),
    (
        "the table among the lists",
        Pool {
            size: 96,
            base: 8,
            table: 20,
            lists: &[(8, 1, 3), (64, 4, 3), (80, 4, 1)],
        },
        &[12, 8, 52, 64],
    ),
    (
        "the table on top",
        Pool {
            size: 100,
            base: 4,
            table: 60,
            lists: &[(12, 1, 6), (24, 2, 3), (40, 5, 3)],
        },
        &[36, 4, 12, 20],
    ),
    (
        "a pool full to the byte",
        Pool {
            size: 80,
            base: 0,
            table: 12,
            lists: &[(0, 3, 4), (52, 1, 16), (68, 12, 1)],
        },
        &[12, 0, 52, 68],
    ),
    (
        "a gap, and a block that ends with the pool",
        Pool {
            size: 80,
            base: 0,
            table: 12,
            lists: &[(0, 3, 3), (52, 1, 13), (72, 8, 1)],
        },
        &[12, 0, 52, 68],
    ),
    (
        "lists without bytes keep their places",
        Pool {
            size: 120,
            base: 6,
            table: 10,
            lists: &[(65_535, 1, 0), (64, 0, 9), (70, 1, 9), (11, 7, 0)],
        },
        &[6, 65_535, 64, 58, 11],
    ),
    (
        "blocks in the reverse order of their rows",
        Pool {
            size: 160,
            base: 4,
            table: 100,
            lists: &[(80, 1, 10), (60, 1, 10), (40, 1, 10), (8, 1, 10)],
        },
        &[52, 40, 28, 16, 4],
    ),
];
