// A number's low bits.

pub fn low8(n: u64) -> u8 {
    (n % 256) as u8
}

pub fn low16(n: u64) -> u16 {
    (n % 65536) as u16
}

pub fn low32(n: u64) -> u32 {
    (n % 4294967296) as u32
}
