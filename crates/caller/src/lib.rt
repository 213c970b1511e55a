// The caller by value: at most four roles and four profile entries, and the `caller` line that gives one.
#![tactic(auto)]

ghost use Rattle.std.specs.Prelude.{◌≡◌, T, take};
ghost use Rattle.lists.specs.Lists.{every, distinct, same_list};
ghost use Rattle.syntax.specs.Limits.{max_roles, max_entries, is_value};
ghost use Rattle.items.specs.Items.{once};
ghost use Rattle.caller.specs.Callers.{caller_sound, no_caller, code_valid, names_of, names_sound};
ghost use Rattle.caller.specs.Lines.{caller_line, line_after, unread_line, line_read, caller_read, identified};

use items::{Entries, Names};
use refusal::{Checks, Refused};
use text::{Line, Word};

// Names are numbers, as `text` reads them.
#[repr(C)]
#[derive(Clone, Copy)]
pub struct Caller {
    pub roles: u32,
    pub role: [u64; Caller::ROLES],
    pub entries: u32,
    pub name: [u64; Caller::ENTRIES],
    pub value: [i32; Caller::ENTRIES],
}

// What is read of a caller line: what is wrong with it, and its caller.
#[derive(Clone, Copy)]
pub struct CallerLine {
    pub checks: Checks,
    pub caller: Caller,
}

// ---- names as numbers

// Whether each of the first n numbers is a name.
fn all_valid(codes: [u64; Caller::ROLES], n: usize) -> bool
    ensures { result ≡ every code_valid (take n codes) }
{
    for code in &codes[..n.min(Caller::ROLES)] {
        if !schema::valid_name(*code) {
            return false;
        }
    }
    true
}

// Whether of the first n numbers none stands twice, and so none of their names.
fn none_twice(codes: [u64; Caller::ROLES], n: usize) -> bool
    ensures { (result ≡ once codes n) × (result ≡ distinct same_list (names_of codes n)) }
{
    items::distinct(&codes[..n.min(Caller::ROLES)])
}

// Whether the first n numbers are names, and none stands twice.
fn all_sound(codes: [u64; Caller::ROLES], n: usize) -> bool
    ensures { result ≡ names_sound codes n }
{
    if !all_valid(codes, n) {
        return false;
    }
    none_twice(codes, n)
}

// Each value is a 32-bit number, which is what is asked of it. It is read so that this is known of it.
fn known(values: [i32; Caller::ENTRIES])
    ensures { T (every is_value values) }
{
    for v in &values {
        let _v = *v;
    }
}

// ---- the line

// Nothing was read: the line is too long, or of another form.
fn unread(long: bool) -> CallerLine
    ensures { result ≡ unread_line long }
{
    CallerLine {
        checks: Checks::unread(long),
        caller: Caller::new(),
    }
}

// The first four of six numbers.
fn first_four(codes: [u64; Names::MOST]) -> [u64; Caller::ROLES]
    ensures { result ≡ take max_roles codes }
{
    [codes[0], codes[1], codes[2], codes[3]]
}

// Whether a name is too long, a value beyond 32 bits, or there are too many roles or entries.
fn beyond(rs: Names, es: Entries) -> bool
    ensures { result ≡ (line_read rs es).checks.bound }
{
    if rs.long {
        return true;
    }
    if es.over {
        return true;
    }
    if (Caller::ENTRIES as u32) < es.count {
        return true;
    }
    (Caller::ROLES as u32) < rs.count
}

// The caller of roles and entries.
fn caller_of(rs: Names, es: Entries) -> Caller
    ensures { result ≡ caller_read rs es }
{
    let codes = rs.codes;
    let role = first_four(codes);
    let name = es.names;
    let value = es.values;
    Caller {
        roles: rs.count,
        role: role,
        entries: es.count,
        name: name,
        value: value,
    }
}

// The line of roles and entries.
fn line_of(rs: Names, es: Entries) -> CallerLine
    ensures { result ≡ line_read rs es }
{
    let caller = caller_of(rs, es);
    let role = caller.role;
    let name = caller.name;
    let roles_twice = !none_twice(role, rs.count as usize);
    let entries_twice = !none_twice(name, es.count as usize);
    let repeated = text::either(roles_twice, entries_twice);
    let checks = Checks::shown(beyond(rs, es), false, repeated, false, false);
    CallerLine {
        checks: checks,
        caller: caller,
    }
}

// The caller line that a text is after its first word.
fn line_after(s: &[u8], at: usize) -> Option<CallerLine>
    ensures { result ≡ line_after s.now at }
{
    let rs = items::read_names(s, text::part(s, at, Word::ROLES)?)?;
    // The entries follow the bracket that closes the roles.
    let es = items::read_entries(s, text::skip(s, rs.next, b')')?)?;
    if !text::closes_at(s, es.next) {
        return None;
    }
    Some(line_of(rs, es))
}

// Returns the caller line that a text is, with what is wrong with it. This decides refusal 1 of caller lines.
pub fn read(s: &[u8]) -> CallerLine
    ensures { result ≡ caller_line s.now }
{
    match Line::after(s, Word::CALLER) {
        Ok(at) => line_after(s, at).unwrap_or(unread(false)),
        Err(e) => unread(e.long()),
    }
}

impl Caller {
    // How many roles a caller may have.
    pub const ROLES: usize = 4;
    // How many profile entries.
    pub const ENTRIES: usize = Entries::MOST;

    // Returns Caller::ROLES, which is the bound of the definitions.
    pub fn roles() -> usize
        ensures { result ≡ max_roles }
    {
        Caller::ROLES
    }

    // Returns Caller::ENTRIES, which is the bound of the definitions.
    pub fn entries() -> usize
        ensures { result ≡ max_entries }
    {
        Caller::ENTRIES
    }

    // Returns the caller of no role and no entry.
    pub fn new() -> Caller
        ensures { result ≡ no_caller }
    {
        Caller {
            roles: 0,
            role: [0; Caller::ROLES],
            entries: 0,
            name: [0; Caller::ENTRIES],
            value: [0; Caller::ENTRIES],
        }
    }

    // Returns whether the caller may be lent (refusal 12).
    pub fn sound(self) -> bool
        ensures { result ≡ caller_sound self }
    {
        let value = self.value;
        known(value);
        if (Caller::ROLES as u32) < self.roles {
            return false;
        }
        if (Caller::ENTRIES as u32) < self.entries {
            return false;
        }
        let role = self.role;
        if !all_sound(role, self.roles as usize) {
            return false;
        }
        let name = self.name;
        all_sound(name, self.entries as usize)
    }

    // The caller line. Returns the caller that the line names, or the refusal with the caller as it was.
    pub fn with_line(self, line: &[u8]) -> Result<Caller, Refused<Caller>>
        ensures { result ≡ identified self line.now }
    {
        let l = read(line);
        match l.checks.result() {
            Ok(()) => Ok(l.caller),
            Err(refusal) => Err(Refused {
                refusal,
                held: self,
            }),
        }
    }
}
