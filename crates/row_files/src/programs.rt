//! The programs. Each has its input, if it reads one, at 0x11000.

/// It exits with 7.
pub const STRAIGHT: [u32; 3] = [0x0070_0513, 0x05D0_0893, 0x0000_0073];

/// It exits with 1 where its input byte is 'A', and else with 0.
pub const FORKED: [u32; 9] = [
    0x0001_12B7,
    0x0002_C383,
    0x0410_0313,
    0x0063_8663,
    0x05D0_0893,
    0x0000_0073,
    0x0010_0513,
    0x05D0_0893,
    0x0000_0073,
];

/// It compares its input byte with 10 and with 21; where the byte is below 10, the second answer is known.
pub const COMPARED: [u32; 10] = [
    0x0001_12B7,
    0x0002_C383,
    0x00A3_B413,
    0x0004_0463,
    0x0015_0513,
    0x0153_B413,
    0x0004_1463,
    0x0025_0513,
    0x05D0_0893,
    0x0000_0073,
];

/// It counts its input byte down to 0, three steps at a time, and exits.
pub const COUNTED: [u32; 7] = [
    0x0001_12B7,
    0x0002_C383,
    0x0003_8663,
    0xFFF3_8393,
    0xFF9F_F06F,
    0x05D0_0893,
    0x0000_0073,
];

/// Its input byte is the number of an environment call.
pub const CALLED: [u32; 3] = [0x0001_12B7, 0x0002_C883, 0x0000_0073];

/// It divides by its input byte, and exits with 1 where the quotient of -7 is 1, and else with 0.
pub const DIVIDED: [u32; 11] = [
    0x0001_12B7,
    0x0002_C383,
    0xFF90_0313,
    0x0273_4433,
    0x0010_0493,
    0x0094_0663,
    0x05D0_0893,
    0x0000_0073,
    0x0010_0513,
    0x05D0_0893,
    0x0000_0073,
];

/// It loads from an address to which it adds its input byte, and exits with 0.
pub const ADDED: [u32; 6] = [
    0x0001_12B7,
    0x0002_C383,
    0x0072_83B3,
    0x1803_8303,
    0x05D0_0893,
    0x0000_0073,
];

/// It stores 9 where its input byte isn't 0, and exits with the byte that is there then.
pub const STORED: [u32; 8] = [
    0x0001_12B7,
    0x0002_C383,
    0x0090_0313,
    0x0003_8463,
    0x0062_8823,
    0x0102_C503,
    0x05D0_0893,
    0x0000_0073,
];
