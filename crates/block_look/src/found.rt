// The two widths of a full block that rows 7 and 8 let through.
#[derive(Clone, Copy)]
pub struct Look {
    pub doc_bits: u32,
    pub freq_bits: u32,
}
