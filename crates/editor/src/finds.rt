// Matches of a pattern, and the distance to the nearest one. A search passes 32 places at once where three bytes of the pattern show
// that it stands at none of them.
ghost use Rattle.std.specs.Prelude.{◌≡◌, Bool, true, not, List, ◌++◌, ℕ, ◌+◌, ◌-◌, ◌≤◌, ◌<◌, length, drop};
ghost use Rattle.gap.specs.declared.Direction.TheVariants.{Left, Right};
ghost use Rattle.gap.specs.Rules.Sequence.{every, begins, counted};
ghost use Rattle.gap.specs.Rules.Doc.{content};
ghost use Rattle.gap.specs.Rules.Nearest.{nearest, distance};
ghost use Rattle.gap.specs.Wording.Views.{seen};
ghost use Rattle.editor.specs.Rules.Keys.{matches};
ghost use Rattle.editor.specs.Wording.Searches.{lowest, match_away, match_left, Reach, likely_at, Telling};

use gap::Direction;
use gap::compare::{run_begins, same_bytes};
use gap::views::View;

// Two runs, the second behind the first, have the pattern at their front: each has its part of it.
fn runs_begin(x: &[u8], y: &[u8], pattern: &[u8]) -> bool
    ensures { result ≡ begins pattern.now (x.now ++ y.now) }
{
    let cut = x.len();
    if pattern.len() <= cut {
        return run_begins(x, 0, pattern);
    }
    if same_bytes(&pattern[..cut], x) {
        return run_begins(y, 0, &pattern[cut..]);
    }
    false
}

// The document has the pattern at place `at`, be it across the cursor.
pub fn text_begins(d: View<'_>, at: usize, pattern: &[u8]) -> bool
    requires { at ≤ length d.l.now + length d.r.now }
    ensures { result ≡ begins pattern.now (drop at (content (seen d.entry))) }
{
    let l = d.l.len();
    if l <= at {
        return run_begins(d.r, at - l, pattern);
    }
    runs_begin(&d.l[at..], d.r, pattern)
}

// What a search answers if one move is enough, as for an empty pattern, which matches everywhere: that move, if there is room for it.
fn first_move(room: usize) -> Option<usize>
    ensures { (test : ℕ → Bool) → test 1 ≡ true → result ≡ nearest test room 1 }
{
    if room < 1 {
        return None;
    }
    Some(1)
}

// The place of the telling byte: the first that differs from the first of all, or else the last. In a text of one letter neither the
// first byte nor the last may show that the pattern cannot stand there; this one does.
fn telling(pattern: &[u8]) -> usize
    requires { 1 ≤ length pattern.now }
    ensures { Telling pattern.now result }
{
    let head = pattern[0];
    let last = pattern.len() - 1;
    pattern[..last]
        .iter()
        .position(|&b| b != head)
        .unwrap_or(last)
}

// A match may begin at place `at`, by three bytes of the pattern: the first, the telling one at k and the last.
fn likely(t: &[u8], at: usize, pattern: &[u8], k: usize) -> bool
    requires { (at + length pattern.now ≤ length t.now) × (k < length pattern.now) }
    ensures { result ≡ likely_at pattern.now k t.now at }
{
    let last = pattern.len() - 1;
    (t[at] == pattern[0]) & (t[at + k] == pattern[k]) & (t[at + last] == pattern[last])
}

// No match may begin at any of the 32 places from `at` on. The loop carries a flag and has neither branch nor exit, so that it is vectorised.
fn none_likely(t: &[u8], at: usize, pattern: &[u8], k: usize) -> bool
    requires { (at + 31 + length pattern.now ≤ length t.now) × (k < length pattern.now) }
    ensures { result ≡ every (λ place. not (likely_at pattern.now k t.now place)) (counted 32 at) }
{
    let mut none = true;
    for i in 0..32 {
        none = none & !likely(t, at + i, pattern, k);
    }
    none
}

// The lowest of the places that are d to e bytes away, so that either direction reads a block from its front.
pub fn lowest_place(way: Direction, n: usize, d: usize, e: usize) -> usize
    requires { e ≤ n }
    ensures { result ≡ lowest way n d e }
{
    match way {
        Direction::Left => n - e,
        Direction::Right => d,
    }
}

// A match begins d bytes away. The whole pattern is compared only where three bytes of it stand.
fn match_away(way: Direction, t: &[u8], d: usize, pattern: &[u8], k: usize) -> bool
    requires reach { Reach way pattern.now t.now d (d + 1) }
    requires k_in_bounds { k < length pattern.now }
    ensures { result ≡ match_away way pattern.now t.now d }
{
    let at = lowest_place(way, t.len(), d, d);
    if likely(t, at, pattern, k) {
        return run_begins(t, at, pattern);
    }
    false
}

// The nearest match that begins from `from` on and below `to` bytes away, looked for place by place.
fn first_match(
    way: Direction,
    t: &[u8],
    from: usize,
    to: usize,
    pattern: &[u8],
    k: usize,
) -> Option<usize>
    requires reach { Reach way pattern.now t.now from to }
    requires k_in_bounds { k < length pattern.now }
    ensures { result ≡ nearest (match_away way pattern.now t.now) (to - from) from }
{
    (from..to).find(|&d| match_away(way, t, d, pattern, k))
}

// The nearest match of those that begin d to d + 31 bytes away: most blocks can have none.
fn block_match(way: Direction, t: &[u8], d: usize, pattern: &[u8], k: usize) -> Option<usize>
    requires reach { Reach way pattern.now t.now d (d + 32) }
    requires k_in_bounds { k < length pattern.now }
    ensures { result ≡ nearest (match_away way pattern.now t.now) 32 d }
{
    let at = lowest_place(way, t.len(), d, d + 31);
    if none_likely(t, at, pattern, k) {
        return None;
    }
    first_match(way, t, d, d + 32, pattern, k)
}

// The nearest match that begins from `from` on and below `to` bytes away, looked for block by block.
fn nearest_match(way: Direction, t: &[u8], from: usize, to: usize, pattern: &[u8]) -> Option<usize>
    requires reach { Reach way pattern.now t.now from to }
    requires in_bounds { 1 ≤ length pattern.now }
    ensures { result ≡ nearest (match_away way pattern.now t.now) (to - from) from }
{
    let k = telling(pattern);
    let blocks = (to - from) / 32;
    for block in 0..blocks {
        if let Some(found) = block_match(way, t, from + 32 * block, pattern, k) {
            return Some(found);
        }
    }
    first_match(way, t, from + 32 * blocks, to, pattern, k)
}

// The distance to the nearest match on the right: the text behind the cursor is one run. Near its end there is no room for one.
fn find_right(t: &[u8], pattern: &[u8]) -> Option<usize>
    ensures { (l : List ℕ) → result ≡ distance Right (matches pattern.now) (record { l = l; r = t.now }) }
{
    let n = t.len();
    let m = pattern.len();
    if m < 1 {
        return first_move(n);
    }
    if n < m {
        return None;
    }
    nearest_match(Direction::Right, t, 1, n - m + 1, pattern)
}

// The nearest match that begins at most n bytes left of the cursor. It may reach across, so that each place is tested by itself.
fn match_across(d: View<'_>, n: usize, pattern: &[u8]) -> Option<usize>
    requires { n ≤ length d.l.now }
    ensures { result ≡ nearest (match_left pattern.now (length d.entry.l.now) (content (seen d.entry))) n 1 }
{
    let l = d.l.len();
    (1..n + 1).find(|&far| text_begins(d, l - far, pattern))
}

// The distance to the nearest match on the left. Those that begin at least as far away as the pattern is long lie left of the cursor.
fn find_left(d: View<'_>, pattern: &[u8]) -> Option<usize>
    ensures { result ≡ distance Left (matches pattern.now) (seen d.entry) }
{
    let l = d.l.len();
    let m = pattern.len();
    if m < 1 {
        return first_move(l);
    }
    if l < m {
        return match_across(d, l, pattern);
    }
    if let Some(far) = match_across(d, m - 1, pattern) {
        return Some(far);
    }
    nearest_match(Direction::Left, d.l, m, l + 1, pattern)
}

// The distance to the nearest match in a direction. Going left a match may reach across the cursor, which asks for the other text too: so the two
// searches stay two, where that for a place is one.
pub fn match_distance(way: Direction, d: View<'_>, pattern: &[u8]) -> Option<usize>
    ensures { result ≡ distance way (matches pattern.now) (seen d.entry) }
{
    match way {
        Direction::Left => find_left(d, pattern),
        Direction::Right => find_right(d.r, pattern),
    }
}
