// The request and answer texts of document 01: numbers in six columns, lines that end with byte 10.
#![tactic(auto)]

ghost use Rattle.std.specs.Prelude.{◌≡◌, ◌+◌, ◌*◌, ◌%◌, ◌^◌, ◌≤◌, ◌<◌, [], ◌∷◌, ◌++◌, ◌||◌, eqb, length};
ghost use Rattle.text.specs.Text.{column_byte, column, line_text, line_end, value_text, further_numbers, SixDigits};
ghost use Rattle.text.specs.Reading.{digit_at, number_at, value_at, values_from, kind_of, budget_of, line_one, line_one_length, rewritten, in_form, says_header, header_answer};
ghost use Rattle.text.specs.Writing.{Put, Wrote};

use refusal::Refusal;

// The most bytes of a request text, the most values that such a text holds, and the most bytes of a text of so many values.
pub const MOST_BYTES: usize = 4096;

pub const MOST_VALUES: u32 = 671;

const MOST_WRITTEN: usize = 4099;

// Line one of a request text. The budget is 0 where the line has none.
#[derive(Clone, Copy, Debug, PartialEq, Eq)]
pub struct Header {
    pub kind: u32,
    pub polynomial: u32,
    pub order: u32,
    pub count: u32,
    pub budget: u32,
}

// ---- writing

// The byte of v in the column that counts `place`s.
fn column_byte(v: u32, place: u32) -> u8
    requires { 0 < place }
    ensures { result ≡ column_byte v place }
{
    if v < place {
        32
    } else {
        48 + (v / place % 10) as u8
    }
}

// Lent bytes, and the place up to which they are written.
#[derive(Drop)]
pub struct Writer<'a> {
    pub space: &'a mut [u8],
    pub at: usize,
}

impl<'a> Writer<'a> {
    // Writes a number of at most six digits in six columns.
    pub fn put_number(&mut self, v: u32)
        requires { (self.old.at + 6 ≤ length self.old.space.now) × (v ≤ 999999) }
        ensures { Wrote self.old self.new (column v) }
    {
        let at = self.at;
        self.space[at] = column_byte(v, 100000);
        self.space[at + 1] = column_byte(v, 10000);
        self.space[at + 2] = column_byte(v, 1000);
        self.space[at + 3] = column_byte(v, 100);
        self.space[at + 4] = column_byte(v, 10);
        self.space[at + 5] = 48 + (v % 10) as u8;
        self.at = at + 6;
    }

    // Ends a line.
    pub fn put_newline(&mut self)
        requires { self.old.at < length self.old.space.now }
        ensures { Wrote self.old self.new (10 ∷ []) }
    {
        self.space[self.at] = 10;
        self.at += 1;
    }

    // Writes a line of numbers, each of at most six digits.
    pub fn put_line(&mut self, numbers: &[u32])
        requires { (self.old.at + 6 * length numbers.now + 1 ≤ length self.old.space.now) × SixDigits numbers.now }
        ensures { Wrote self.old self.new (line_text numbers.now) }
    {
        for number in numbers {
            self.put_number(*number);
        }
        self.put_newline();
    }
}

// ---- reading

// The digit in a column, 0 behind the end.
fn digit_at(text: &[u8], at: usize) -> u32
    ensures { result ≡ digit_at text.now at }
{
    match text.get(at) {
        Some(byte) => u32::from(byte % 16 % 10),
        None => 0,
    }
}

// The number in the six columns from place `at` on.
fn number_at(text: &[u8], at: usize) -> u32
    requires { at + 6 < 2 ^ 64 }
    ensures { result ≡ number_at text.now at }
{
    let mut number = 0;
    for i in 0..6 {
        number = number * 10 + digit_at(text, at + i);
    }
    number
}

// How many numbers stand in line one of a request text behind the count, by the kind.
fn further_numbers(kind: u32) -> usize
    ensures { result ≡ further_numbers kind }
{
    if kind == 6 { 1 } else { 0 }
}

// The bytes of line one of a request text, by the kind.
pub fn line_one_length(kind: u32) -> usize
    ensures { result ≡ line_one_length kind }
{
    25 + 6 * further_numbers(kind)
}

// The budget in line one, 0 where it has none.
fn budget_of(text: &[u8]) -> u32
    ensures { result ≡ budget_of text.now }
{
    if further_numbers(number_at(text, 0)) == 0 {
        0
    } else {
        number_at(text, 24)
    }
}

// Value i of the part of a request text that follows line one; what is not there is read as 0.
pub fn value_at(values: &[u8], i: usize) -> u32
    ensures { result ≡ value_at values.now i }
{
    if values.len() / 6 < i {
        return 0;
    }
    number_at(values, 6 * i + i / 16)
}

// ---- reading, writing anew and comparing

// Whether a line ends after value i, with `left` values to come.
fn ends_line(i: usize, left: usize) -> bool
    ensures { result ≡ (eqb (i % 16) 15 || eqb left 0) }
{
    i % 16 == 15 || left == 0
}

// Writes value i with what follows it on its line.
fn put_value(writer: &mut Writer, v: u32, i: usize, left: usize)
    requires { (writer.old.at + length (column v ++ line_end i left) ≤ length writer.old.space.now) × (v ≤ 999999) }
    ensures { Wrote writer.old writer.new (column v ++ line_end i left) }
{
    writer.put_number(v);
    if ends_line(i, left) {
        writer.put_newline();
    }
}

// Writes `count` values, sixteen to a line, as they are read from the part of a request text that follows line one.
fn put_values(writer: &mut Writer, values: &[u8], count: usize)
    requires { writer.old.at + length (value_text 0 (values_from values.now 0 count)) ≤ length writer.old.space.now }
    ensures { Wrote writer.old writer.new (value_text 0 (values_from values.now 0 count)) }
{
    for i in 0..count {
        put_value(writer, value_at(values, i), i, count - i - 1);
    }
}

// Writes line one of the numbers read from a text.
fn put_line_one(writer: &mut Writer, text: &[u8])
    requires { writer.old.at + line_one_length (kind_of text.now) ≤ length writer.old.space.now }
    ensures { Wrote writer.old writer.new (line_text (line_one text.now)) }
{
    let kind = number_at(text, 0);
    let polynomial = number_at(text, 6);
    let order = number_at(text, 12);
    let count = number_at(text, 18);
    let numbers = [kind, polynomial, order, count, number_at(text, 24)];
    writer.put_line(&numbers[..4 + further_numbers(kind)]);
}

// Writes the request text of the numbers read from a text. The result is its length.
fn rewrite(space: &mut [u8], text: &[u8]) -> usize
    requires { (line_one_length (kind_of text.now) ≤ length text.now) × (length (rewritten text.now) ≤ length space.old) }
    ensures { Put space.old space.new 0 (rewritten text.now) result }
{
    let line_one = line_one_length(number_at(text, 0));
    let count = number_at(text, 18);
    let mut writer = Writer { space, at: 0 };
    put_line_one(&mut writer, text);
    put_values(&mut writer, &text[line_one..], count as usize);
    writer.at
}

// Whether a text is the request text of the numbers read from it, with at most 4,096 bytes.
pub fn in_form(text: &[u8]) -> bool
    ensures { result ≡ in_form text.now }
{
    if text.len() < line_one_length(number_at(text, 0)) {
        return false;
    }
    if MOST_BYTES < text.len() {
        return false;
    }
    if MOST_VALUES < number_at(text, 18) {
        return false;
    }
    let mut again = [0u8; MOST_WRITTEN];
    let n = rewrite(&mut again, text);
    text == &again[..n]
}

// Line one of a text in form; a text that is not in form is refused.
pub fn read_header(text: &[u8]) -> Result<Header, Refusal>
    ensures { says_header result ≡ header_answer text.now }
{
    if !in_form(text) {
        return Err(Refusal::Form);
    }
    Ok(Header {
        kind: number_at(text, 0),
        polynomial: number_at(text, 6),
        order: number_at(text, 12),
        count: number_at(text, 18),
        budget: budget_of(text),
    })
}
