// The calls of the agent.
ghost use Rattle.std.specs.Prelude.{◌≡◌};
ghost use Rattle.payments.specs.declared.Action.TheVariants.{Check, Payment, Status, Cancel};
ghost use Rattle.book.specs.Lent.{lent_book};
ghost use Rattle.acceptance.specs.Acceptance.{acceptance_of, accept};
ghost use Rattle.daybook.specs.Freezing.{freeze};
ghost use Rattle.listing.specs.Listing.{listing_of, write_registry};
ghost use Rattle.writing.specs.Writing.{writing_of, write_request, write_check};
ghost use Rattle.answering.specs.Answering.{taking_of, take_answer};
ghost use Rattle.reporting.specs.Reporting.{reporting_of, take_report};

use acceptance::accepting;
use acceptance::accepting::Acceptance;
use book::Book;
use daybook::freezing::Freezing;
use daybook::{Writing, freezing};
use days::calendar::Day;
use fields::number::Number;
use lists::rows::{Rows, RowsView};
use payments::Action;
use reporting::taking;
use reporting::taking::Reporting;

// Accepts a payment and gives its receipt.
#[unsafe(no_mangle)]
pub extern "C" fn roosteryore_accept(
    nums: &mut [[u64; 6]],
    numbers: &mut [[u8; 30]],
    dates: &mut [[u8; 19]],
    book: Book,
    number: Number,
    kind: u64,
    kopecks: u64,
    date: &[u8; 19],
) -> Acceptance
    ensures { acceptance_of result (lent_book nums.new numbers.new dates.new) ≡ accept book (lent_book nums.old numbers.old dates.old) number kind kopecks date.now }
{
    let mut entries = Rows {
        nums,
        numbers,
        dates,
    };
    let written = *date;
    accepting::accept(&mut entries, book, number, kind, kopecks, written)
}

// Freezes the next day.
#[unsafe(no_mangle)]
pub extern "C" fn roosteryore_freeze(
    nums: &[[u64; 6]],
    numbers: &[[u8; 30]],
    dates: &[[u8; 19]],
    book: Book,
    day: Day,
) -> Freezing
    ensures { result ≡ freeze book (lent_book nums.now numbers.now dates.now) day }
{
    let entries = RowsView {
        nums,
        numbers,
        dates,
    };
    freezing::freeze(entries, book, day)
}

// Writes the registry of a frozen day.
#[unsafe(no_mangle)]
pub extern "C" fn roosteryore_write_registry(
    nums: &[[u64; 6]],
    numbers: &[[u8; 30]],
    dates: &[[u8; 19]],
    book: Book,
    day: Day,
    out: &mut [u8],
) -> Writing
    ensures { listing_of result out.new ≡ write_registry book (lent_book nums.now numbers.now dates.now) day out.old }
{
    let entries = RowsView {
        nums,
        numbers,
        dates,
    };
    listing::write_registry(entries, book, day, out)
}

// Writes a check of an account and an amount.
#[unsafe(no_mangle)]
pub extern "C" fn roosteryore_write_check(
    nums: &[[u64; 6]],
    numbers: &[[u8; 30]],
    dates: &[[u8; 19]],
    book: Book,
    number: Number,
    kind: u64,
    kopecks: u64,
    out: &mut [u8],
) -> Writing
    ensures { writing_of result (lent_book nums.now numbers.now dates.now) out.new ≡ write_check book (lent_book nums.now numbers.now dates.now) number kind kopecks out.old }
{
    let entries = RowsView {
        nums,
        numbers,
        dates,
    };
    writing::write_check(entries, book, number, kind, kopecks, out)
}

// Writes the payment of a receipt.
#[unsafe(no_mangle)]
pub extern "C" fn roosteryore_write_payment(
    nums: &mut [[u64; 6]],
    numbers: &mut [[u8; 30]],
    dates: &mut [[u8; 19]],
    book: Book,
    receipt: u64,
    out: &mut [u8],
) -> Writing
    ensures { writing_of result (lent_book nums.new numbers.new dates.new) out.new ≡ write_request book (lent_book nums.old numbers.old dates.old) Payment receipt 0 out.old }
{
    let mut entries = Rows {
        nums,
        numbers,
        dates,
    };
    writing::write_payment(&mut entries, book, receipt, out)
}

// Writes the status of a receipt.
#[unsafe(no_mangle)]
pub extern "C" fn roosteryore_write_status(
    nums: &mut [[u64; 6]],
    numbers: &mut [[u8; 30]],
    dates: &mut [[u8; 19]],
    book: Book,
    receipt: u64,
    out: &mut [u8],
) -> Writing
    ensures { writing_of result (lent_book nums.new numbers.new dates.new) out.new ≡ write_request book (lent_book nums.old numbers.old dates.old) Status receipt 0 out.old }
{
    let mut entries = Rows {
        nums,
        numbers,
        dates,
    };
    writing::write_status(&mut entries, book, receipt, out)
}

// Writes the cancel of a receipt, for a reason; its entry is cancel-asked from then on.
#[unsafe(no_mangle)]
pub extern "C" fn roosteryore_write_cancel(
    nums: &mut [[u64; 6]],
    numbers: &mut [[u8; 30]],
    dates: &mut [[u8; 19]],
    book: Book,
    receipt: u64,
    reason: u64,
    out: &mut [u8],
) -> Writing
    ensures { writing_of result (lent_book nums.new numbers.new dates.new) out.new ≡ write_request book (lent_book nums.old numbers.old dates.old) Cancel receipt reason out.old }
{
    let mut entries = Rows {
        nums,
        numbers,
        dates,
    };
    writing::write_cancel(&mut entries, book, receipt, reason, out)
}

// Takes the answer to a check; it has no receipt.
#[unsafe(no_mangle)]
pub extern "C" fn roosteryore_take_check_answer(
    nums: &mut [[u64; 6]],
    numbers: &mut [[u8; 30]],
    dates: &mut [[u8; 19]],
    book: Book,
    text: &[u8],
) -> u64
    ensures { taking_of result (lent_book nums.new numbers.new dates.new) ≡ take_answer book (lent_book nums.old numbers.old dates.old) Check 0 text.now }
{
    let mut entries = Rows {
        nums,
        numbers,
        dates,
    };
    answering::take_answer(&mut entries, book, Action::Check, 0, text)
}

// Takes the answer to a payment.
#[unsafe(no_mangle)]
pub extern "C" fn roosteryore_take_payment_answer(
    nums: &mut [[u64; 6]],
    numbers: &mut [[u8; 30]],
    dates: &mut [[u8; 19]],
    book: Book,
    receipt: u64,
    text: &[u8],
) -> u64
    ensures { taking_of result (lent_book nums.new numbers.new dates.new) ≡ take_answer book (lent_book nums.old numbers.old dates.old) Payment receipt text.now }
{
    let mut entries = Rows {
        nums,
        numbers,
        dates,
    };
    answering::take_answer(&mut entries, book, Action::Payment, receipt, text)
}

// Takes the answer to a status.
#[unsafe(no_mangle)]
pub extern "C" fn roosteryore_take_status_answer(
    nums: &mut [[u64; 6]],
    numbers: &mut [[u8; 30]],
    dates: &mut [[u8; 19]],
    book: Book,
    receipt: u64,
    text: &[u8],
) -> u64
    ensures { taking_of result (lent_book nums.new numbers.new dates.new) ≡ take_answer book (lent_book nums.old numbers.old dates.old) Status receipt text.now }
{
    let mut entries = Rows {
        nums,
        numbers,
        dates,
    };
    answering::take_answer(&mut entries, book, Action::Status, receipt, text)
}

// Takes the answer to a cancel.
#[unsafe(no_mangle)]
pub extern "C" fn roosteryore_take_cancel_answer(
    nums: &mut [[u64; 6]],
    numbers: &mut [[u8; 30]],
    dates: &mut [[u8; 19]],
    book: Book,
    receipt: u64,
    text: &[u8],
) -> u64
    ensures { taking_of result (lent_book nums.new numbers.new dates.new) ≡ take_answer book (lent_book nums.old numbers.old dates.old) Cancel receipt text.now }
{
    let mut entries = Rows {
        nums,
        numbers,
        dates,
    };
    answering::take_answer(&mut entries, book, Action::Cancel, receipt, text)
}

// Takes the report of a frozen day.
#[unsafe(no_mangle)]
pub extern "C" fn roosteryore_take_report(
    nums: &mut [[u64; 6]],
    numbers: &mut [[u8; 30]],
    dates: &mut [[u8; 19]],
    book: Book,
    day: Day,
    marks: &[u8],
) -> Reporting
    ensures { reporting_of result (lent_book nums.new numbers.new dates.new) ≡ take_report book (lent_book nums.old numbers.old dates.old) day marks.now }
{
    let mut entries = Rows {
        nums,
        numbers,
        dates,
    };
    taking::take_report(&mut entries, book, day, marks)
}
