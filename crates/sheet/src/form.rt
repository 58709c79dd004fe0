// A sheet's form: refusal 46.
ghost use Rattle.std.specs.{Prelude.{◌≡◌, ◌+◌, ◌≤◌, length, drop}, List.list_any};
ghost use Rattle.sheet.specs.Extents.{place_of};
ghost use Rattle.sheet_model.specs.Sheet.{before, after, any, twice, outside, malformed};

/// The place of x among the labels listed from i on, counted from 0 at the whole list's start;
/// its length where x isn't there. Two labels a turn: with 32 turns a search, whether the processor
/// predicts the last one depends on where the code lies. The turn counts by its second label, so that
/// one register is stepped and compared.
pub fn place_from(listed: &[u32], i: usize, x: u32) -> usize
    requires { i ≤ length listed.now }
    ensures { result ≡ i + place_of x (drop i listed.now) }
{
    let n = listed.len();
    let mut j = i + 1;
    while j < n {
        if listed[j - 1] == x {
            return j - 1;
        }
        if listed[j] == x {
            return j;
        }
        j += 2;
    }
    if n < j {
        return j - 1;
    }
    if listed[j - 1] == x {
        return j - 1;
    }
    n
}

/// Whether a label is listed twice.
fn listed_twice(listed: &[u32]) -> bool
    ensures { result ≡ twice listed.now }
{
    for (i, x) in listed.iter().enumerate() {
        if place_from(listed, i + 1, *x) < listed.len() {
            return true;
        }
    }
    false
}

/// The place of the label that a rule has print first.
pub fn before(w: u32) -> usize
    ensures { result ≡ before w }
{
    (w >> 16) as usize
}

/// The place of the one after it.
pub fn after(w: u32) -> usize
    ensures { result ≡ after w }
{
    (w % 65536) as usize
}

/// Whether a rule points outside a list of n labels.
fn outside(n: usize, w: u32) -> bool
    ensures { result ≡ outside n w }
{
    let last = n as u64;
    !(sound::from1(last, before(w) as u64) & sound::from1(last, after(w) as u64))
}

/// Whether any of these rules points outside a list of n labels.
fn points_outside(n: usize, rules: &[u32]) -> bool
    ensures { result ≡ list_any (outside n) rules.now }
{
    rules.iter().any(|w| outside(n, *w))
}

/// Over 32 labels, over 128 rules, a label listed twice, or a rule that points outside the list.
pub fn malformed(listed: &[u32], rules: &[u32]) -> bool
    ensures { result ≡ malformed (record { listed = listed.now; rules = rules.now }) }
{
    let n = listed.len();
    if (32 < n) | (128 < rules.len()) {
        return true;
    }
    listed_twice(listed) || points_outside(n, rules)
}
