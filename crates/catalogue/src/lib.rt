// The catalogue, lent as a slice of grants beside the words of their conditions: what its grants open for a caller, and whether it may be lent.
#![tactic(auto)]

ghost use Rattle.std.specs.Prelude.{◌≡◌, ◌&&◌, ◌<◌, pos, get_or};
ghost use Rattle.syntax.specs.Limits.{max_entries};
ghost use Rattle.terms.specs.Terms.{biased};
ghost use Rattle.grant.specs.Grants.{grant_sound};
ghost use Rattle.grant.specs.Catalogues.{words_in};
ghost use Rattle.routes.specs.Listing.{caller_bits};
ghost use Rattle.catalogue.specs.Callers.{roles_of, numbers_of, profile_of};
ghost use Rattle.catalogue.specs.Opened.{blank, none_opened, with_bits, opened_with, opened_in};

use caller::Caller;
use grant::Grant;
use needs::Needs;
use routes::Open;
use schema::Stream;

// How many numbers a profile takes: a name and a value an entry.
pub const PROFILE: usize = 2 * Caller::ENTRIES;

// What the grants that were taken open, and whether they may be lent.
#[derive(Clone, Copy)]
pub struct Opened {
    pub opens: Open,
    pub sound: bool,
}

// ---- the caller as numbers

// The value of a profile entry in 32 bits, the lowest as 0.
fn entry_value(who: Caller, i: usize) -> u64
    requires { i < max_entries }
    ensures { result ≡ biased (get_or who.value i (pos 0)) }
{
    let values = who.value;
    ((values[i] as i64) + 2147483648) as u64
}

// Returns the profile of a caller as numbers, names and values in turn: all its places, whether they are counted or not.
pub fn profile_of(who: Caller) -> [u64; PROFILE]
    ensures { result ≡ numbers_of who max_entries }
{
    let names = who.name;
    let a = entry_value(who, 0);
    let b = entry_value(who, 1);
    let c = entry_value(who, 2);
    let d = entry_value(who, 3);
    [names[0], a, names[1], b, names[2], c, names[3], d]
}

// ---- one grant

// What a grant opens for a caller: nothing where it is not theirs.
fn caller_bits(n: Needs, g: Grant, words: &[u32], roles: &[u64], profile: &[u64]) -> u32
    ensures { result ≡ caller_bits n g words.now roles.now profile.now }
{
    if !routes::belongs(g, words, roles, profile) {
        return 0;
    }
    routes::opens(n, g, words)
}

// The words of a place, as far as they are lent.
fn place_words(granted: &[u32], place: u32) -> &[u32]
    ensures { result.now ≡ words_in granted.now place }
{
    let k = granted.len();
    let a = (place as usize * Grant::PLACE).min(k);
    let b = (a + Grant::PLACE).min(k);
    &granted[a..b]
}

// Whether a grant may be lent beside those that were taken.
fn also_sound(sound: bool, g: Grant, names: &[u64], words: &[u32]) -> bool
    ensures { result ≡ (sound && grant_sound names.now g words.now) }
{
    if !sound {
        return false;
    }
    g.sound(names, words)
}

impl Opened {
    // Returns no grant, of a catalogue of so many grants with so many words lent.
    pub fn none(count: usize, words: usize) -> Self
        ensures { result ≡ none_opened count words }
    {
        let o = Open::new();
        if Grant::GRANTS < count {
            return Opened {
                opens: o,
                sound: false,
            };
        }
        Opened {
            opens: o,
            sound: Grant::WORDS <= words,
        }
    }

    // It with one grant more in a place, by the ways that it opens: its words are those of its place, as far as they are lent.
    fn with(self, place: u32, g: Grant, bits: u32, names: &[u64], granted: &[u32]) -> Self
        ensures { result ≡ with_bits self place g bits names.now granted.now }
    {
        let sound = also_sound(self.sound, g, names, place_words(granted, place));
        let o = self.opens;
        Opened {
            opens: o.with_grant(place, bits, g),
            sound: sound,
        }
    }

    // Returns it with one grant more in a place, for a caller by value.
    pub fn with_caller(
        self,
        n: Needs,
        place: u32,
        g: Grant,
        names: &[u64],
        granted: &[u32],
        who: Caller,
    ) -> Self
        ensures { result ≡ opened_with self n place g names.now granted.now (roles_of who) (profile_of who) }
    {
        let role = who.role;
        let k = (who.roles as usize).min(Caller::ROLES);
        let profile = profile_of(who);
        let e = (who.entries as usize).min(Caller::ENTRIES) * 2;
        let words = place_words(granted, place);
        let bits = caller_bits(n, g, words, &role[0..k], &profile[0..e]);
        self.with(place, g, bits, names, granted)
    }
}

// ---- the lent slice

// Returns the grant in a place, a grant of zeros past the last.
pub fn grant_at(grants: &[Grant], i: usize) -> Grant
    ensures { result ≡ get_or grants.now i blank }
{
    if i < grants.len() {
        grants[i]
    } else {
        Grant {
            role: 0,
            right: 0,
            count: 0,
            streams: [0; Stream::MOST],
            shown: 0,
            words: 0,
            from: 0,
            to: 0,
            size: 0,
            offset: 0,
        }
    }
}

// Returns what the grants of a catalogue open for a caller and a query, and whether the catalogue may be lent (refusal 12).
pub fn open_all(grants: &[Grant], n: Needs, names: &[u64], granted: &[u32], who: Caller) -> Opened
    ensures { result ≡ opened_in n names.now grants.now granted.now (roles_of who) (profile_of who) }
{
    let k = grants.len().min(Grant::GRANTS);
    let mut o = Opened::none(grants.len(), granted.len());
    for i in 0..k {
        let g = grant_at(grants, i);
        o = o.with_caller(n, i as u32, g, names, granted, who);
    }
    o
}
