// The calls on names: a new table, intern, resolve.
ghost use Rattle.std.specs.Prelude.{◌≡◌, ◌<◌, ◌≢◌, IfOk, IfErr};
ghost use Rattle.link.specs.Judge.{judged, judge_of};
ghost use Rattle.interner.specs.Calls.{lent, issued_of, clear_heads, left, said};
ghost use Rattle.interner.specs.Lent.{same_loans, store_in, store_read};
ghost use Rattle.interner.specs.Contract.{names_exit, InternMeets, new_exit, NewNamesMeets, resolve_exit, ResolveMeets};

use crate::{Names, NamesMut};
use link::{Cause, Interned, Lent, Link, Refusal};

// No chain has a name.
#[tactic(auto, unfolding(crate::specs::Calls::clear_heads))]
fn clear_heads(names: &mut [u64])
    ensures { names.new ≡ clear_heads names.old }
{
    let rows = link::name_rows(names.len());
    cells::clear_from(names, rows * crate::ROW_WIDTH);
}

impl<'a> Names<'a, '_> {
    // What a call on names is lent.
    fn lent(self) -> Lent
        ensures { result ≡ lent (store_read self.entry) }
    {
        Lent {
            names: self.cells.len() / link::NAME_CELLS,
            bytes: self.bytes.len(),
            symbols: link::NOT_LENT,
            sections: self.link.slots,
            inputs: link::NOT_LENT,
            lists: link::NOT_LENT,
        }
    }

    // 1 for a count above what is lent.
    pub fn judge(self) -> Result<(), Refusal>
        ensures { let s = store_read self.entry in result ≡ judged (judge_of s.link (lent s)) }
    {
        self.link.judge(self.lent())
    }

    // The bytes of a name, as that very part of the lent bytes. 1; 23 for an id never issued.
    #[tactic(auto, unfolding(crate::specs::Calls::resolve_of, link::specs::Judge::judged))]
    pub fn resolve(self, id: Interned) -> Result<&'a [u8], Refusal>
        ensures answer { ResolveMeets (store_read self.entry) id (resolve_exit result) }
        ensures refused { IfErr result (λ r. r.number ≢ 0) }
        ensures place { IfOk result (λ x. x.ref_ptr.0 ≡ self.entry.bytes.ref_ptr.0) }
    {
        self.judge()?;
        if self.link.names <= id.0 {
            return Err(Refusal::new(Cause::UnknownGlobalName, 0));
        }
        Ok(crate::name_of(self.bytes, self.cells, id))
    }
}

impl NamesMut<'_> {
    // The id of a known name, or of a new one where there is room; the name is hashed once.
    #[tactic(auto, unfolding(crate::specs::Calls::issue_of, crate::specs::Names::find_of, crate::specs::Names::fits_of, crate::specs::Names::keep_of, crate::specs::Names::keep_at))]
    fn issue(&mut self, x: &[u8]) -> Result<Interned, Refusal>
        ensures same { same_loans self.old self.new }
        ensures answer { left (store_in self.new) (said result) ≡ issued_of (store_in self.old) x.now }
    {
        let names = self.read();
        let head = names.head(x);
        let id = names.find_from(head, x);
        if id.0 < names.link.names {
            return Ok(id);
        }
        if !names.has_room(x.len()) {
            return Err(Refusal::new(Cause::NoRoom, 0));
        }
        self.keep_at(id, head, x);
        Ok(id)
    }

    // Equal bytes get the same id. 22; 1; then, for a name not issued yet, 2.
    #[tactic(auto, unfolding(crate::specs::Calls::intern_of, link::specs::Judge::judged))]
    pub fn intern(&mut self, x: &[u8]) -> Result<Interned, Refusal>
        ensures same { same_loans self.old self.new }
        ensures answer { InternMeets (store_in self.old) x.now (names_exit self.new result) }
    {
        self.link.judge_change(self.read().lent())?;
        self.issue(x)
    }
}

// A link without rows but the empty name, whose id is 0. Whatever the cells held before doesn't matter. Any number is a key of the hash; answers
// don't depend on it, and who doesn't know it can't choose names that share a chain.
#[tactic(auto, using(crate::specs::Proof::NewWays::blank_issued), unfolding(crate::specs::Calls::new_of))]
pub fn reset(key: usize, bytes: &mut [u8], cells: &mut [u64]) -> Result<Link, Refusal>
    ensures reset { NewNamesMeets key bytes.old cells.old (new_exit bytes cells result) }
    ensures issued { IfOk result (λ l. l.names ≡ 1) }
{
    let rows = link::name_rows(cells.len());
    if rows == 0 {
        return Err(Refusal::new(Cause::NoRoom, 0));
    }
    clear_heads(cells);
    let mut names = NamesMut {
        link: Link::no_names(key, rows),
        bytes,
        cells,
    };
    names.keep(Interned(0), b"");
    Ok(names.link)
}
