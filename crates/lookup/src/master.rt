use crate::entry::Entry;

// The headings stand apart from the cells, as the table is printed. The rows, by Q_PR
// in thousandths of a percent.
pub const Q_PR: [u32; 2] = [100, 125];

// The columns, by Q_CR in thousandths of a percent.
pub const Q_CR: [u32; 17] = [
    800, 1000, 1250, 1600, 2000, 2500, 3150, 4000, 5000, 6300, 8000, 10000, 12500, 16000, 20000,
    25000, 31500,
];

// The printed plans, a row for each Q_PR; an empty cell is `None`.
pub const CELLS: [[Option<Entry>; 17]; 2] = [
    [
        Some(Entry {
            g: 2750,
            h_a: 2794,
            h_r: 3882,
            n_t: 29,
        }),
        Some(Entry {
            g: 2708,
            h_a: 2431,
            h_r: 3403,
            n_t: 23,
        }),
        Some(Entry {
            g: 2666,
            h_a: 2126,
            h_r: 2987,
            n_t: 19,
        }),
        Some(Entry {
            g: 2617,
            h_a: 1842,
            h_r: 2593,
            n_t: 16,
        }),
        Some(Entry {
            g: 2572,
            h_a: 1636,
            h_r: 2331,
            n_t: 13,
        }),
        Some(Entry {
            g: 2525,
            h_a: 1452,
            h_r: 2092,
            n_t: 11,
        }),
        Some(Entry {
            g: 2475,
            h_a: 1273,
            h_r: 1840,
            n_t: 10,
        }),
        Some(Entry {
            g: 2420,
            h_a: 1125,
            h_r: 1667,
            n_t: 8,
        }),
        Some(Entry {
            g: 2368,
            h_a: 976,
            h_r: 1460,
            n_t: 8,
        }),
        Some(Entry {
            g: 2310,
            h_a: 846,
            h_r: 1304,
            n_t: 7,
        }),
        Some(Entry {
            g: 2248,
            h_a: 715,
            h_r: 1142,
            n_t: 7,
        }),
        Some(Entry {
            g: 2186,
            h_a: 609,
            h_r: 1035,
            n_t: 5,
        }),
        Some(Entry {
            g: 2120,
            h_a: 492,
            h_r: 894,
            n_t: 5,
        }),
        Some(Entry {
            g: 2042,
            h_a: 371,
            h_r: 764,
            n_t: 4,
        }),
        Some(Entry {
            g: 1966,
            h_a: 254,
            h_r: 634,
            n_t: 4,
        }),
        Some(Entry {
            g: 1882,
            h_a: 138,
            h_r: 508,
            n_t: 4,
        }),
        Some(Entry {
            g: 1786,
            h_a: 12,
            h_r: 377,
            n_t: 4,
        }),
    ],
    [
        Some(Entry {
            g: 2716,
            h_a: 3168,
            h_r: 4396,
            n_t: 35,
        }),
        Some(Entry {
            g: 2675,
            h_a: 2715,
            h_r: 3773,
            n_t: 28,
        }),
        Some(Entry {
            g: 2632,
            h_a: 2349,
            h_r: 3271,
            n_t: 23,
        }),
        Some(Entry {
            g: 2584,
            h_a: 2019,
            h_r: 2816,
            n_t: 19,
        }),
        Some(Entry {
            g: 2539,
            h_a: 1774,
            h_r: 2487,
            n_t: 16,
        }),
        Some(Entry {
            g: 2492,
            h_a: 1572,
            h_r: 2229,
            n_t: 13,
        }),
        Some(Entry {
            g: 2441,
            h_a: 1384,
            h_r: 1984,
            n_t: 11,
        }),
        Some(Entry {
            g: 2387,
            h_a: 1205,
            h_r: 1742,
            n_t: 10,
        }),
        Some(Entry {
            g: 2334,
            h_a: 1067,
            h_r: 1583,
            n_t: 8,
        }),
        Some(Entry {
            g: 2277,
            h_a: 926,
            h_r: 1409,
            n_t: 7,
        }),
        Some(Entry {
            g: 2214,
            h_a: 783,
            h_r: 1225,
            n_t: 7,
        }),
        Some(Entry {
            g: 2152,
            h_a: 675,
            h_r: 1120,
            n_t: 5,
        }),
        Some(Entry {
            g: 2087,
            h_a: 549,
            h_r: 962,
            n_t: 5,
        }),
        Some(Entry {
            g: 2009,
            h_a: 418,
            h_r: 810,
            n_t: 4,
        }),
        Some(Entry {
            g: 1932,
            h_a: 304,
            h_r: 688,
            n_t: 4,
        }),
        Some(Entry {
            g: 1849,
            h_a: 184,
            h_r: 557,
            n_t: 4,
        }),
        Some(Entry {
            g: 1753,
            h_a: 55,
            h_r: 422,
            n_t: 4,
        }),
    ],
];
