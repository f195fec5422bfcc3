// Bytes written into a lent buffer.
ghost use Rattle.std.specs.Prelude.{◌≡◌};
ghost use Rattle.texts.specs.Lists.{written, cursor_after};

// Writes src at the cursor and hands the cursor behind it back; without room nothing is written and the cursor stays.
pub fn put_bytes(src: &[u8], dst: &mut [u8], at: usize) -> usize
    ensures { (result ≡ cursor_after dst.old at src.now) × (dst.new ≡ written dst.old at src.now) }
{
    if dst.len() < at || dst.len() - at < src.len() {
        return at;
    }
    let end = at + src.len();
    dst[at..end].copy_from_slice(src);
    end
}
