// The three rows in which a table or a book is lent: N holds the numbers of a place, D its dates. Three slices and no slice of records, since C lends them so (`roosteryore_deliver`, `roosteryore_accept`).
ghost use Rattle.std.specs.Prelude.{◌≡◌, true, length};
ghost use Rattle.lists.specs.Lent.{lent_well, Lent};
ghost use Rattle.lists.specs.Rows.{IsView};

use crate::PLACES_MOST;

#[derive(Drop)]
pub struct Rows<'a, N, D> {
    pub nums: &'a mut [N],
    pub numbers: &'a mut [[u8; 30]],
    pub dates: &'a mut [D],
}

// The same rows, lent to be read.
#[derive(Clone, Copy)]
pub struct RowsView<'a, N, D> {
    pub nums: &'a [N],
    pub numbers: &'a [[u8; 30]],
    pub dates: &'a [D],
}

impl<N, D> Rows<'_, N, D> {
    pub fn view(&self) -> RowsView<'_, N, D>
        ensures { IsView self.now result }
    {
        RowsView {
            nums: self.nums,
            numbers: self.numbers,
            dates: self.dates,
        }
    }
}

impl<N, D> RowsView<'_, N, D> {
    // Whether these rows are lent as a table or a book is, and no more of them is used.
    #[tactic(auto, unfolding(crate::specs::Lent::lent_well))]
    pub fn is_lent(self, used: usize) -> bool
        ensures value { result ≡ lent_well used (length self.entry.nums.now) (length self.entry.numbers.now) (length self.entry.dates.now) }
        ensures lent { result ≡ true → Lent used (length self.entry.nums.now) (length self.entry.numbers.now) (length self.entry.dates.now) }
    {
        let nums = self.nums.len();
        let (numbers, dates) = (self.numbers.len(), self.dates.len());
        1 <= nums && nums <= PLACES_MOST && numbers == nums && dates == nums && used <= nums
    }
}
