// The first rule of the request that a well breaks (document 02, Q-1), with the numbers of the sheet's injectors and those of the places before it
// handed over as sets.
#![tactic(auto)]

ghost use Rattle.std.specs.Prelude.{◌≡◌, ◌==◌, ◌&&◌, not, length};
ghost use Rattle.std.specs.List.{list_any};
ghost use Rattle.definition.specs.Refusal.{first_of};
ghost use Rattle.plan_definition.specs.declared.Link.{Link};
ghost use Rattle.plan_definition.specs.Rules.{breaks_kind, breaks_link_count, misnamed, names_same, not_zero, struck as is_struck, number_of, rules_by};
ghost use Rattle.plan_numbers.specs.Numbers.{has};
ghost use Rattle.plan_rules.specs.Parts.{shape_rules, misshared};

use plan_definition::{INJECTOR, LINKS_MOST, Link, PRODUCER, RATE_MOST, Rule, SHARES_TOTAL, Well};

// Whether the kind breaks its rule, and whether the link count does.
fn kind_breaks(w: Well) -> bool
    ensures { result ≡ breaks_kind w }
{
    w.kind != PRODUCER && w.kind != INJECTOR
}

fn count_breaks(w: Well) -> bool
    ensures { result ≡ breaks_link_count w }
{
    match w.kind {
        PRODUCER => LINKS_MOST < w.count || (w.count == 0) != (w.rate == 0),
        INJECTOR => w.count != 0,
        _ => false,
    }
}

// The first of the four rules that ask after the well's own numbers.
fn shaped(w: Well) -> Option<Rule>
    ensures { number_of result ≡ first_of (shape_rules w) }
{
    if w.number == 0 {
        Some(Rule::Number)
    } else if kind_breaks(w) {
        Some(Rule::Kind)
    } else if count_breaks(w) {
        Some(Rule::LinkCount)
    } else if RATE_MOST < w.rate {
        Some(Rule::Rate)
    } else {
        None
    }
}

// Whether one of some links names the same injector as another link.
fn named_again(links: &[Link], l: Link) -> bool
    ensures { result ≡ list_any (λ (m : Link). m.injector == l.injector) links.now }
{
    links.iter().any(|m| m.injector == l.injector)
}

// Whether the used links break the rule of links: each names an injector, and none after it the same.
fn links_break(used: &[Link], injectors: &[u64; 1024]) -> bool
    ensures { result ≡ misnamed (has injectors.now) used.now }
{
    for (k, l) in used.iter().enumerate() {
        if !plan_numbers::has(injectors, l.injector) || named_again(&used[k + 1..], *l) {
            return true;
        }
    }
    false
}

// Whether their shares break theirs: each is 1 to 1000, and together they are 1000, of which each takes its part.
fn shares_break(used: &[Link]) -> bool
    ensures { result ≡ misshared (length used.now) used.now }
{
    if used.is_empty() {
        return false;
    }
    let mut left = SHARES_TOTAL;
    for l in used {
        if l.share == 0 || left < l.share {
            return true;
        }
        left -= l.share;
    }
    left != 0
}

// Whether one of some links isn't zero, which unused links are.
fn some_set(links: &[Link]) -> bool
    ensures { result ≡ list_any (λ (m : Link). not (m.injector == 0 && m.share == 0)) links.now }
{
    links.iter().any(|&l| l != Link::default())
}

// Whether a record is struck (Q-11): all but its place is that of a default. That a well isn't is told by its number.
pub fn struck(w: Well) -> bool
    ensures { result ≡ is_struck w }
{
    w.number == 0 && Well { place: 0, ..w } == Well::default()
}

// The first rule that a well breaks, where injectors has the numbers of the sheet's injectors and seen those of the places before.
pub fn broken(w: Well, injectors: &[u64; 1024], seen: &[u64; 1024]) -> Option<Rule>
    ensures { number_of result ≡ first_of (rules_by (has injectors.now) (has seen.now) w) }
{
    let first = shaped(w);
    if first.is_some() {
        return first;
    }
    // The links alone are copied: lent from w, they would have all of w copied.
    let links = w.links;
    let (used, unused) = links.split_at(usize::from(w.count));
    let misnamed = links_break(used, injectors);
    let misshared = shares_break(used);
    if misnamed {
        Some(Rule::Links)
    } else if misshared {
        Some(Rule::Shares)
    } else if some_set(unused) {
        Some(Rule::UnusedLinks)
    } else if plan_numbers::has(seen, w.number) {
        Some(Rule::Repeat)
    } else {
        None
    }
}
