// The table that a program lends to a reading: what it holds beforehand, and whether that has changed.
ghost use Rattle.std.specs.Prelude.{◌≡◌, true};
ghost use Rattle.cases.specs.Table.{numbers, Untouched};

// How many numbers the table holds: room for 30,000 rows.
pub const NUMBERS: usize = 150000;

// What the table holds beforehand: numbers that ascend from this one, such as no row has.
const UNTOUCHED: usize = 1000000000;

// Fills the table with what it holds beforehand.
pub fn prepare(table: &mut [usize; NUMBERS])
    ensures { Untouched table.new 0 numbers }
{
    for (i, number) in table.iter_mut().enumerate() {
        *number = UNTOUCHED + i;
    }
}

// Whether the table's numbers from a place on are as they were beforehand.
pub fn is_untouched(table: &[usize; NUMBERS], from: usize) -> bool
    ensures { (result ≡ true → Untouched table.now from numbers) × (Untouched table.now from numbers → result ≡ true) }
{
    (from..NUMBERS).all(|i| table[i] == UNTOUCHED + i)
}
