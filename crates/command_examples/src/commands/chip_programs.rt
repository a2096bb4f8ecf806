// The programs of the worked examples, in pieces at their offsets.

/// A program: words at their offsets from the entry, zeros between.
pub type Program = &'static [(usize, &'static [u32])];

// x10 = 0, x11 = 65536 + 64, x12 = 64, x17 = 1000, a launch
const LAUNCH: &[u32] = &[
    0x0000_0513,
    0x0001_05b7,
    0x0405_8593,
    0x0400_0613,
    0x3e80_0893,
    0x0000_0073,
];

// A wait for the core, then an exit
const WAIT: &[u32] = &[0x3e90_0893, 0x0000_0073, 0x05d0_0893, 0x0000_0073];

// jal x0,-4 in place of the wait's first word
const GO_BACK: &[u32] = &[0xffdf_f06f, 0x0000_0073, 0x05d0_0893, 0x0000_0073];

// sw x0,0(x12)
const STORE: &[u32] = &[0x0006_2023];

// sw x0,512(x12)
const FAR_STORE: &[u32] = &[0x2006_2023];

// addi x0,x0,0
const NOTHING: &[u32] = &[0x0000_0013];

// jal x0,0
const STAY: &[u32] = &[0x0000_006f];

// lw x10,0(x10), and done
const LOADS: &[u32] = &[0x0005_2503, 0x3ec0_0893, 0x0000_0073];

/// A hart stores a 0 to the line that the kernel loads from.
pub const SILENT_STORE: Program = &[(0, LAUNCH), (24, STORE), (28, WAIT), (64, LOADS)];

/// The hart stores to another line.
pub const ALIAS: Program = &[(0, LAUNCH), (24, FAR_STORE), (28, WAIT), (64, LOADS)];

/// A hart stores again and again.
pub const STORES: Program = &[(0, LAUNCH), (24, STORE), (28, GO_BACK), (64, LOADS)];

/// A kernel and a hart that stay where they are.
pub const ENDLESS: Program = &[(0, LAUNCH), (24, STAY), (28, WAIT), (64, STAY)];

/// A kernel that loads from two lines: lw x5,0(x10); lw x6,64(x10).
pub const LOADS_TWO: Program = &[
    (0, LAUNCH),
    (24, NOTHING),
    (28, WAIT),
    (64, &[0x0005_2283, 0x0405_2303, 0x3ec0_0893, 0x0000_0073]),
];

/// A kernel that stores to two lines: sw x0,0(x10); sw x0,64(x10).
pub const STORES_TWO: Program = &[
    (0, LAUNCH),
    (24, NOTHING),
    (28, WAIT),
    (64, &[0x0005_2023, 0x0405_2023, 0x3ec0_0893, 0x0000_0073]),
];

/// A kernel that puts two bytes: addi x17,x0,1003; ecall; ecall.
pub const PUTS_TWO: Program = &[
    (0, LAUNCH),
    (24, NOTHING),
    (28, WAIT),
    (
        64,
        &[
            0x3eb0_0893,
            0x0000_0073,
            0x0000_0073,
            0x3ec0_0893,
            0x0000_0073,
        ],
    ),
];

/// A kernel that stores a byte and loads its word: sb x0,0(x10); lw x5,0(x10).
pub const HALF_COVERED: Program = &[
    (0, LAUNCH),
    (24, STORE),
    (28, WAIT),
    (64, &[0x0005_0023, 0x0005_2283, 0x3ec0_0893, 0x0000_0073]),
];

/// A kernel that stores a word and loads it: sw x0,0(x10); lw x5,0(x10).
pub const COVERED: Program = &[
    (0, LAUNCH),
    (24, STORE),
    (28, WAIT),
    (64, &[0x0005_2023, 0x0005_2283, 0x3ec0_0893, 0x0000_0073]),
];

/// A kernel with an atomic: amoadd.w x5,x10,(x10).
pub const ATOMIC: Program = &[
    (0, LAUNCH),
    (24, STORE),
    (28, WAIT),
    (64, &[0x00a5_22af, 0x3ec0_0893, 0x0000_0073]),
];

/// A launch whose entry is no multiple of 4: addi x11,x11,66 in place of 64.
pub const TRAPS: Program = &[
    (
        0,
        &[
            0x0000_0513,
            0x0001_05b7,
            0x0425_8593,
            0x0400_0613,
            0x3e80_0893,
            0x0000_0073,
        ],
    ),
    (24, NOTHING),
    (28, WAIT),
    (64, &[0x3ec0_0893, 0x0000_0073]),
];

/// A hart and a kernel store to one line: addi x12,x0,64; addi x5,x0,17; sb x5,0(x12), a launch and
/// an exit; addi x5,x0,34; sb x5,1(x10).
pub const TWO_WRITERS: Program = &[
    (
        0,
        &[
            0x0400_0613,
            0x0110_0293,
            0x0056_0023,
            0x0000_0513,
            0x0001_05b7,
            0x0405_8593,
            0x3e80_0893,
            0x0000_0073,
            0x05d0_0893,
            0x0000_0073,
        ],
    ),
    (64, &[0x0220_0293, 0x0055_00a3, 0x3ec0_0893, 0x0000_0073]),
];

/// A kernel takes an address from a line that the hart's cache holds dirty: lui x12,16;
/// addi x12,x12,128; sw x12,0(x12), a launch, a wait and an exit; lw x6,0(x10); lw x10,0(x6).
pub const STALE_POINTER: Program = &[
    (
        0,
        &[
            0x0001_0637,
            0x0806_0613,
            0x00c6_2023,
            0x0000_0513,
            0x0001_05b7,
            0x0405_8593,
            0x3e80_0893,
            0x0000_0073,
        ],
    ),
    (32, WAIT),
    (64, &[0x0005_2303, 0x0003_2503, 0x3ec0_0893, 0x0000_0073]),
    (128, &[0xffff_fffc]),
];

/// A hart launches two cores, one storing where the other loads: after a launch addi x10,x0,1;
/// addi x11,x11,32; ecall; jal x0,0; at 64 addi x5,x0,5; sw x5,0(x10); at 96 lw x10,0(x10).
pub const TWO_CORES: Program = &[
    (0, LAUNCH),
    (24, &[0x0010_0513, 0x0205_8593, 0x0000_0073, 0x0000_006f]),
    (64, &[0x0050_0293, 0x0055_2023, 0x3ec0_0893, 0x0000_0073]),
    (96, LOADS),
];

/// Each hart stores a byte of its own to one line and loads from the next: addi x5,x10,65;
/// sb x5,64(x10); lw x6,128(x0); jal x0,0.
pub const ONE_SET: Program = &[(0, &[0x0415_0293, 0x0455_0023, 0x0800_2303, 0x0000_006f])];

/// A hart stores the numbers 256 to 1 and the kernel adds them: lui x5,32; addi x6,x0,256;
/// sw x6,0(x5); addi x5,x5,4; addi x6,x6,-1; bne x6,x0,-12; addi x10,x0,0; lui x11,16;
/// addi x11,x11,128; lui x12,32, a launch, a wait, addi x10,x11,0 and an exit;
/// addi x5,x0,256; lw x6,0(x10); add x7,x7,x6; addi x10,x10,4; addi x5,x5,-1; bne x5,x0,-16;
/// addi x10,x7,0.
pub const ORDINARY_USE: Program = &[
    (
        0,
        &[
            0x0002_02b7,
            0x1000_0313,
            0x0062_a023,
            0x0042_8293,
            0xfff3_0313,
            0xfe03_1ae3,
            0x0000_0513,
            0x0001_05b7,
            0x0805_8593,
            0x0002_0637,
            0x3e80_0893,
            0x0000_0073,
            0x3e90_0893,
            0x0000_0073,
            0x0005_8513,
            0x05d0_0893,
            0x0000_0073,
        ],
    ),
    (
        128,
        &[
            0x1000_0293,
            0x0005_2303,
            0x0063_83b3,
            0x0045_0513,
            0xfff2_8293,
            0xfe02_98e3,
            0x0003_8513,
            0x3ec0_0893,
            0x0000_0073,
        ],
    ),
];

/// A second launch after the first.
pub const LAUNCHES_AGAIN: Program = &[(0, LAUNCH), (24, &[0x0000_0073]), (64, LOADS)];

/// A launch of core 1: addi x10,x0,1 in place of a 0.
pub const LAUNCHES_CORE_1: Program = &[(
    0,
    &[
        0x0010_0513,
        0x0001_05b7,
        0x0405_8593,
        0x0400_0613,
        0x3e80_0893,
        0x0000_0073,
    ],
)];

/// A poll of core 1: addi x10,x0,1; addi x17,x0,1002; ecall.
pub const POLLS_CORE_1: Program = &[(0, &[0x0010_0513, 0x3ea0_0893, 0x0000_0073])];

/// A poll of core 0.
pub const POLLS: Program = &[(0, &[0x0000_0513, 0x3ea0_0893, 0x0000_0073])];

/// A wait for core 0.
pub const WAITS: Program = &[(0, &[0x0000_0513, 0x3e90_0893, 0x0000_0073])];

/// A kernel's call by a hart: addi x17,x0,1004; ecall.
pub const HART_IS_DONE: Program = &[(0, &[0x3ec0_0893, 0x0000_0073])];

/// A hart's call by a kernel: addi x17,x0,93; ecall.
pub const KERNEL_EXITS: Program = &[
    (0, LAUNCH),
    (24, NOTHING),
    (28, WAIT),
    (64, &[0x05d0_0893, 0x0000_0073]),
];
