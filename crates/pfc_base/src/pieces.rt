// The pieces of a text between separators.
ghost use Rattle.std.specs.Prelude.{◌≡◌, ◌≢◌, ◌<◌, ◌≤◌, ℕ, length, slice_index, option_map};
ghost use Rattle.pfc_base.specs.Pieces.{pieces_of, Begins, AreFree};

/// Where the byte stands first, or the length where it doesn't.
fn find_byte(bytes: &[u8], byte: u8) -> usize
    ensures within { result ≤ length bytes.now }
    ensures before { AreFree byte bytes.now result }
    ensures found { result < length bytes.now → slice_index bytes.now result ≡ byte }
{
    for (i, b) in bytes.iter().enumerate() {
        if *b == byte {
            return i;
        }
    }
    bytes.len()
}

/// The first piece, and what stands behind the separator after it.
pub fn next_piece(bytes: &[u8], sep: u8) -> (&[u8], Option<&[u8]>)
    ensures { Begins sep bytes.now result.0.now (option_map (λ rest. rest.now) result.1) }
{
    let i = find_byte(bytes, sep);
    if i == bytes.len() {
        (bytes, None)
    } else {
        (&bytes[..i], Some(&bytes[i + 1..]))
    }
}
