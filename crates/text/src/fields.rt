// Fields of a line: the bytes between runs of spaces and tabs; and the number that a field spells.
ghost use Rattle.std.specs.Prelude.{◌≡◌, true};
ghost use Rattle.text.specs.Fields.{is_separator, run_end, next_field, start_of, field_of, without_cr};
ghost use Rattle.text.specs.Decimal.{digit_of, decimal_of};

// ---- fields

#[tactic(auto, unfolding(crate::specs::Fields::is_separator))]
fn is_separator(b: u8) -> bool
    ensures { result ≡ is_separator b }
{
    b == b' ' || b == b'\t'
}

// Where the separators, or the bytes of a field, that begin at the place end.
fn run_end(line: &[u8], at: usize, separators: bool) -> usize
    ensures { result ≡ run_end line.now at separators }
{
    // Kept: over `skip` and `position` the place would have to be added back to what they count from it on.
    for i in at..line.len() {
        if is_separator(line[i]) != separators {
            return i;
        }
    }
    at.max(line.len())
}

#[tactic(auto, unfolding(crate::specs::Fields::next_field))]
fn next_field(line: &[u8], at: usize) -> usize
    ensures { result ≡ next_field line.now at }
{
    run_end(line, run_end(line, at, false), true)
}

// Where field k begins; the end where there is none.
fn start_of(line: &[u8], k: usize) -> usize
    ensures { result ≡ start_of line.now (run_end line.now 0 true) k }
{
    let mut at = run_end(line, 0, true);
    for _ in 0..k {
        at = next_field(line, at);
    }
    at
}

// Field k, from 0 on, as that very part of the line; past the last field, nothing.
pub fn field(line: &[u8], k: usize) -> &[u8]
    ensures result_value { result.now ≡ field_of line.now k }
    ensures place { result.ref_ptr.0 ≡ line.entry.ref_ptr.0 }
{
    let start = start_of(line, k);
    let end = run_end(line, start, false);
    cells::part_of(line, start, end - start)
}

// The line without a carriage return at its end.
#[tactic(auto, unfolding(crate::specs::Fields::without_cr))]
pub fn without_cr(line: &[u8]) -> &[u8]
    ensures result_value { result.now ≡ without_cr line.now }
    ensures place { result.ref_ptr.0 ≡ line.entry.ref_ptr.0 }
{
    match line {
        [start @ .., b'\r'] => start,
        _ => line,
    }
}

// ---- numbers

// One digit more, as far as 64 bits hold the number.
#[tactic(auto, unfolding(crate::specs::Decimal::digit_of, crate::specs::Decimal::below64))]
fn digit_of(n: u64, b: u8) -> Option<u64>
    ensures { result ≡ digit_of n b }
{
    if !b.is_ascii_digit() {
        return None;
    }
    n.checked_mul(10)?.checked_add(u64::from(b - b'0'))
}

// The number that decimal digits spell; none where there is another byte, no digit, or no room in 64 bits.
pub fn decimal(x: &[u8]) -> Option<u64>
    ensures { result ≡ decimal_of x.now }
{
    if x.is_empty() {
        return None;
    }
    let mut n = 0;
    for &b in x {
        n = digit_of(n, b)?;
    }
    Some(n)
}
