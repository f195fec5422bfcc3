// Reports: one byte a line, `1` or `0`.
ghost use Rattle.std.specs.Prelude.{◌≡◌};
ghost use Rattle.registry.specs.Report.{is_mark, is_report};

// Whether a byte is `0` or `1`.
fn is_mark(b: u8) -> bool
    ensures { result ≡ is_mark b }
{
    matches!(b, b'0' | b'1')
}

// Whether a text is a report of n lines.
pub fn is_report(s: &[u8], n: usize) -> bool
    ensures { result ≡ is_report n s.now }
{
    s.len() == n && s.iter().all(|b| is_mark(*b))
}
