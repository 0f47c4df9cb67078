// How far a text is well formed, and whether all of it is.

#[unsafe(no_mangle)]
pub extern "C" fn test_up_to(text: &[u8]) -> u64 {
    rtr_text::well_formed_up_to(text) as u64
}

#[unsafe(no_mangle)]
pub extern "C" fn test_is_text(text: &[u8]) -> bool {
    rtr_text::is_well_formed(text)
}
