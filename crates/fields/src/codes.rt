// Receipts, types and reasons: digit fields with a range.
ghost use Rattle.std.specs.Prelude.{◌≡◌};
ghost use Rattle.fields.specs.Codes.{is_receipt, receipt_read, is_kind, kind_read, is_reason, reason_read};

use texts::digits;

// The largest receipt: 10^15 - 1.
const RECEIPT_MOST: u64 = 999999999999999;

// Whether a value is a receipt, a payment's number.
pub fn is_receipt(v: u64) -> bool
    ensures { result ≡ is_receipt v }
{
    digits::is_within(1, RECEIPT_MOST, v)
}

// A receipt: a payment's number, in at most 15 digits.
pub fn read_receipt(s: &[u8]) -> Option<u64>
    ensures { result ≡ receipt_read s.now }
{
    digits::read_range(s, 15, 1, RECEIPT_MOST)
}

// Whether a value is an account's type.
pub fn is_kind(v: u64) -> bool
    ensures { result ≡ is_kind v }
{
    digits::is_within(0, 999, v)
}

// A type: 1 to 3 digits.
pub fn read_kind(s: &[u8]) -> Option<u64>
    ensures { result ≡ kind_read s.now }
{
    digits::read_range(s, 3, 0, 999)
}

// Whether a value is the reason of a cancel.
pub fn is_reason(v: u64) -> bool
    ensures { result ≡ is_reason v }
{
    digits::is_within(1, 5, v)
}

// A reason: one digit, 1 to 5.
pub fn read_reason(s: &[u8]) -> Option<u64>
    ensures { result ≡ reason_read s.now }
{
    digits::read_range(s, 1, 1, 5)
}
