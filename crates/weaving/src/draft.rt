// A small lace draft: eight rows for sixty-four needles. A one is a needle that knits; the highest bit of a row is the leftmost.

pub const ROWS: usize = 8;

pub const DRAFT: [u64; ROWS] = [
    0xffff_ffff_ffff_ffff,
    0x8003_8003_8003_8003,
    0xa005_a005_a005_a005,
    0x9449_9449_9449_9449,
    0x8a91_8a91_8a91_8a91,
    0x9449_9449_9449_9449,
    0xa005_a005_a005_a005,
    0xffff_ffff_ffff_ffff,
];
