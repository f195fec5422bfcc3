// The text of a request, written into a lent buffer.
ghost use Rattle.std.specs.Prelude.{◌≡◌, ◌&&◌, ◌||◌, not};
ghost use Rattle.texts.specs.Lists.{written, cursor_after};
ghost use Rattle.texts.specs.Digits.{decimal};
ghost use Rattle.fields.specs.Amount.{is_amount, amount_bytes};
ghost use Rattle.fields.specs.Codes.{is_kind};
ghost use Rattle.fields.specs.Number.{is_number};
ghost use Rattle.parameters.specs.Names.{action_word};
ghost use Rattle.message.specs.RequestText.{is_asked, request_text};
ghost use Rattle.request_writer.specs.Writes.{buffer_all, cursor_all};
ghost use Rattle.request_writer.specs.WriteWalk.{pair_texts, account_texts, payment_texts, request_texts};

use coding::url;
use dates::date;
use fields::number::Number;
use fields::{amount, codes};
use message::request::Asked;
use parameters::action;
use payments::Action;
use texts::{digits, out, scan};

// The word of an action.
#[tactic(auto, unfolding(parameters::specs::Names::action_word))]
fn word(a: Action) -> &'static [u8]
    ensures { result.now ≡ action_word a }
{
    match a {
        Action::Check => b"check",
        Action::Payment => b"payment",
        Action::Status => b"status",
        Action::Cancel => b"cancel",
    }
}

// Writes a name and its value, url-coded, where the action has the field. Put into its caller, as the next two are: where the name is a constant its copy calls no
// `memmove`, which an archive for C would have to be given.
#[inline(always)]
#[tactic(auto, using(crate::proofs::WriteTexts::pair_laws))]
fn write_pair(used: bool, before: &[u8], value: &[u8], dst: &mut [u8], at: usize) -> usize
    ensures { (result ≡ cursor_all (pair_texts used before.now value.now) dst.old at)
        × (dst.new ≡ buffer_all (pair_texts used before.now value.now) dst.old at) }
{
    if !used {
        return at;
    }
    let p = out::put_bytes(before, dst, at);
    url::write_coded(value, dst, p)
}

// The same for a number's digits.
#[inline(always)]
fn digits_pair(used: bool, before: &[u8], n: u64, dst: &mut [u8], at: usize) -> usize
    ensures { (result ≡ cursor_all (pair_texts used before.now (decimal n)) dst.old at)
        × (dst.new ≡ buffer_all (pair_texts used before.now (decimal n)) dst.old at) }
{
    let mut text = [0u8; 32];
    let e = digits::write_digits(n, &mut text, 0);
    write_pair(used, before, scan::first_bytes(&text, e), dst, at)
}

// The same for an amount.
#[inline(always)]
fn amount_pair(used: bool, before: &[u8], kopecks: u64, dst: &mut [u8], at: usize) -> usize
    ensures { (result ≡ cursor_all (pair_texts used before.now (amount_bytes kopecks)) dst.old at)
        × (dst.new ≡ buffer_all (pair_texts used before.now (amount_bytes kopecks)) dst.old at) }
{
    let mut text = [0u8; 32];
    let e = amount::write_amount(kopecks, &mut text, 0);
    write_pair(used, before, scan::first_bytes(&text, e), dst, at)
}

// Number, type and amount.
#[tactic(auto, using(crate::proofs::WriteTexts::account_laws))]
fn write_account(q: Asked, dst: &mut [u8], at: usize) -> usize
    ensures { (result ≡ cursor_all (account_texts q) dst.old at) × (dst.new ≡ buffer_all (account_texts q) dst.old at) }
{
    let used = action::has_account(q.action);
    let number = scan::first_bytes(&q.number.bytes, q.number.len);
    let p = write_pair(used, b"&number=", number, dst, at);
    let e = digits_pair(used, b"&type=", q.kind, dst, p);
    amount_pair(used, b"&amount=", q.amount, dst, e)
}

// Receipt, date and reason.
#[tactic(auto, using(crate::proofs::WriteTexts::payment_laws))]
fn write_payment(q: Asked, dst: &mut [u8], at: usize) -> usize
    ensures { (result ≡ cursor_all (payment_texts q) dst.old at) × (dst.new ≡ buffer_all (payment_texts q) dst.old at) }
{
    let a = q.action;
    let p = digits_pair(action::has_receipt(a), b"&receipt=", q.receipt, dst, at);
    let e = write_pair(action::has_date(a), b"&date=", &q.date, dst, p);
    digits_pair(action::has_reason(a), b"&mes=", q.reason, dst, e)
}

// The whole text, piece by piece.
#[tactic(auto, using(crate::proofs::WriteTexts::request_laws))]
fn write_texts(q: Asked, dst: &mut [u8], at: usize) -> usize
    ensures { (result ≡ cursor_all (request_texts q) dst.old at) × (dst.new ≡ buffer_all (request_texts q) dst.old at) }
{
    let p = out::put_bytes(b"action=", dst, at);
    let w = out::put_bytes(word(q.action), dst, p);
    let e = write_account(q, dst, w);
    write_payment(q, dst, e)
}

// Whether number, type and amount are well formed.
fn account_valid(n: Number, kind: u64, kopecks: u64) -> bool
    ensures { result ≡ is_number n && (is_kind kind && is_amount kopecks) }
{
    n.is_valid() && codes::is_kind(kind) && amount::is_amount(kopecks)
}

// Whether the fields that the action has are well formed.
#[tactic(auto, unfolding(message::specs::RequestText::is_asked))]
pub fn is_asked(q: Asked) -> bool
    ensures { result ≡ is_asked q }
{
    let a = q.action;
    (!action::has_receipt(a) || codes::is_receipt(q.receipt))
        && (!action::has_account(a) || account_valid(q.number, q.kind, q.amount))
        && (!action::has_date(a) || date::is_written(q.date))
        && (!action::has_reason(a) || codes::is_reason(q.reason))
}

// Writes a request at the cursor, where its fields are well formed and it has room.
#[tactic(auto, using(crate::proofs::WriteLaws::refused_laws))]
pub fn write_request(q: Asked, dst: &mut [u8], at: usize) -> usize
    ensures { (result ≡ cursor_after dst.old at (request_text q)) × (dst.new ≡ written dst.old at (request_text q)) }
{
    if !is_asked(q) {
        return at;
    }
    let mut text = [0u8; 256];
    let n = write_texts(q, &mut text, 0);
    out::put_bytes(scan::first_bytes(&text, n), dst, at)
}
