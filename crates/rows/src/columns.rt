// The rows of a lent table. Only this module knows the columns: ten numbers a row of optional elements, four a mandatory one.
// A number that is not there counts as 0, so that each call has an answer for every table and every place; where all are taken
// at once, an unfinished row has none.
ghost use Rattle.std.specs.Prelude.{◌≡◌, ◌*◌, length, get_or, drop};
ghost use Rattle.definitions.specs.Rows.{rows_of, row_at, ieis, form, form_of};
ghost use Rattle.definitions.specs.Mandatory.{mandatory_rows_of, mandatory_row_at, mandatory_form, mandatory_form_of};
ghost use Rattle.rows.specs.Forms.{form_as, mandatory_form_as};
ghost use Rattle.rows.specs.Numbers.{numbers_at};

// The form of an optional element; fixed has so many value octets after the IEI.
#[derive(Clone, Copy, PartialEq, Eq)]
pub enum Form {
    Half,
    Fixed(usize),
    Tlv,
    TlvE,
}

// The numbers of a row, with its first IEI alone: how many IEIs, that one, the code and the size of its form, the least and the
// greatest whole length, the set of kinds.
#[derive(Clone, Copy, PartialEq, Eq, Default)]
pub struct Numbers {
    pub count: u32,
    pub first: u32,
    pub code: u32,
    pub size: usize,
    pub least: usize,
    pub greatest: usize,
    pub kinds: u32,
}

// The form of a mandatory element.
#[derive(Clone, Copy, PartialEq, Eq)]
pub enum MandatoryForm {
    LowHalf,
    HighHalf,
    Fixed(usize),
    Lv,
    LvE,
}

// A number of a row of so many. A position past the greatest counts as that, where no table has a number either.
fn number_at<const WIDTH: usize>(table: &[u32], place: usize, column: usize) -> u32
    ensures { result ≡ get_or (drop (WIDTH * place) table.now) column 0 }
{
    let at = WIDTH.saturating_mul(place).saturating_add(column);
    table.get(at).copied().unwrap_or(0)
}

// ---- optional rows

// How many places a table has; an unfinished row at the end is one too.
pub fn places(table: &[u32]) -> usize
    ensures { result ≡ length (rows_of table.now) }
{
    table.len().div_ceil(10)
}

pub fn count_at(table: &[u32], place: usize) -> u32
    ensures { result ≡ (row_at (rows_of table.now) place).count }
{
    number_at::<10>(table, place, 0)
}

pub fn code_at(table: &[u32], place: usize) -> u32
    ensures { result ≡ (row_at (rows_of table.now) place).code }
{
    number_at::<10>(table, place, 5)
}

pub fn size_at(table: &[u32], place: usize) -> usize
    ensures { result ≡ (row_at (rows_of table.now) place).size }
{
    number_at::<10>(table, place, 6) as usize
}

// The numbers of a row that the table has whole, at once; of any other each is 0. They are read for each element: by one test for all,
// since `number_at` would make one for each.
pub fn numbers_at(table: &[u32], place: usize) -> Numbers
    ensures { result ≡ numbers_at table.now place }
{
    if place >= table.len() / 10 {
        return Numbers::default();
    }
    let start = 10 * place;
    Numbers {
        count: table[start],
        first: table[start + 1],
        code: table[start + 5],
        size: table[start + 6] as usize,
        least: table[start + 7] as usize,
        greatest: table[start + 8] as usize,
        kinds: table[start + 9],
    }
}

// The form that a code and a size say.
pub fn form_of(code: u32, size: usize) -> Form
    ensures { form_as result ≡ form_of code size }
{
    match code {
        0 => Form::Half,
        1 => Form::Fixed(size),
        2 => Form::Tlv,
        _ => Form::TlvE,
    }
}

// Of a row that the table has whole, by one test for both numbers.
pub fn form_at(table: &[u32], place: usize) -> Form
    ensures { form_as result ≡ form (row_at (rows_of table.now) place) }
{
    if place < table.len() / 10 {
        let row = numbers_at(table, place);
        return form_of(row.code, row.size);
    }
    form_of(code_at(table, place), size_at(table, place))
}

// How many IEIs a row lists; of more than four, and of an unfinished row, those that are there.
// Of a row that the table has whole, by one test: in a loop over such rows, what any other asks would be computed for each.
pub fn iei_count(table: &[u32], place: usize) -> usize
    ensures { result ≡ length (ieis (row_at (rows_of table.now) place)) }
{
    let count = count_at(table, place) as usize;
    if place < table.len() / 10 {
        return count.min(4);
    }
    let left = table.len().saturating_sub(place.saturating_mul(10));
    let there = left.saturating_sub(1).min(4);
    there.min(count)
}

// One of the four numbers of a row for its IEIs, listed or not; 0 past the fourth.
pub fn slot_at(table: &[u32], place: usize, number: usize) -> u32
    ensures { result ≡ get_or (row_at (rows_of table.now) place).slots number 0 }
{
    if number >= 4 {
        return 0;
    }
    number_at::<10>(table, place, 1 + number)
}

// ---- mandatory rows

pub fn mandatory_rows(table: &[u32]) -> usize
    ensures { result ≡ length (mandatory_rows_of table.now) }
{
    table.len().div_ceil(4)
}

pub fn mandatory_code_at(table: &[u32], row: usize) -> u32
    ensures { result ≡ (mandatory_row_at (mandatory_rows_of table.now) row).code }
{
    number_at::<4>(table, row, 0)
}

pub fn mandatory_size_at(table: &[u32], row: usize) -> usize
    ensures { result ≡ (mandatory_row_at (mandatory_rows_of table.now) row).size }
{
    number_at::<4>(table, row, 1) as usize
}

// The least whole length, length octets counted.
pub fn mandatory_least_at(table: &[u32], row: usize) -> usize
    ensures { result ≡ (mandatory_row_at (mandatory_rows_of table.now) row).least }
{
    number_at::<4>(table, row, 2) as usize
}

pub fn mandatory_kinds_at(table: &[u32], row: usize) -> u32
    ensures { result ≡ (mandatory_row_at (mandatory_rows_of table.now) row).kinds }
{
    number_at::<4>(table, row, 3)
}

fn mandatory_form_of(code: u32, size: usize) -> MandatoryForm
    ensures { mandatory_form_as result ≡ mandatory_form_of code size }
{
    match code {
        0 => MandatoryForm::LowHalf,
        1 => MandatoryForm::HighHalf,
        2 => MandatoryForm::Fixed(size),
        3 => MandatoryForm::Lv,
        _ => MandatoryForm::LvE,
    }
}

pub fn mandatory_form_at(table: &[u32], row: usize) -> MandatoryForm
    ensures { mandatory_form_as result ≡ mandatory_form (mandatory_row_at (mandatory_rows_of table.now) row) }
{
    mandatory_form_of(mandatory_code_at(table, row), mandatory_size_at(table, row))
}
