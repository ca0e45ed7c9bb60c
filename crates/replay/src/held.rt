//! What the engine holds after a run, beside the state that the list has. The rows of the stores are read where crates stacks and heap lay them.
use crate::bytes::{List, agrees, is_text};
use crate::differs::{Differs, want};
use heap::{GLOBALS_AT, OBJECTS_AT, PROPERTIES_AT};
use heapops::Counts;
use report::Stores;
use stacks::{FRAMES_AT, HANDLERS_AT, SLOTS_AT};
use value::{Value, Words};

// The stores, and how far they are in use.
#[derive(Clone, Copy)]
pub struct Held<'a> {
    pub stores: &'a Stores,
    pub counts: Counts,
}

// Row i of those of N words from place `first` on.
fn row<const N: usize>(words: &[u64], first: usize, i: usize) -> Option<[u64; N]> {
    let at = i.checked_mul(N)?.checked_add(first)?;
    let (row, _) = words.get(at..)?.split_first_chunk::<N>()?;
    Some(*row)
}

fn decoded(kind: u64, first: u64, second: u64) -> Value {
    Value::from(Words {
        kind,
        first,
        second,
    })
}

impl<'a> Held<'a> {
    // The list's next value is this one.
    pub fn value(self, list: &mut List<'_>, v: Value, what: Differs) -> Result<(), Differs> {
        let listed = list.value().ok_or(what)?;
        if agrees(&self.stores.code, &self.stores.text, v, listed) {
            Ok(())
        } else {
            Err(what)
        }
    }

    // So is it that of row i from place `first` of the stacks on.
    fn entry(
        self,
        list: &mut List<'_>,
        first: usize,
        i: usize,
        what: Differs,
    ) -> Result<(), Differs> {
        let [kind, a, b] = row::<3>(&self.stores.stacks, first, i).ok_or(what)?;
        self.value(list, decoded(kind, a, b), what)
    }

    fn operands(self, list: &mut List<'_>) -> Result<(), Differs> {
        let n = self.counts.depths.operands;
        want(list.word(), n as u64, Differs::Operands)?;
        for i in (0..n).rev() {
            self.entry(list, 0, i, Differs::Operand)?;
        }
        Ok(())
    }

    // The newest frame's place is not in its row: `ip` is for that one alone.
    fn frame(self, list: &mut List<'_>, i: usize, ip: Option<usize>) -> Result<(), Differs> {
        let [image, template, place, base, slots] = row::<5>(
            &self.stores.stacks,
            FRAMES_AT,
            i,
        ).ok_or(Differs::Frame)?;
        let place = match ip {
            Some(ip) => ip as u64,
            None => place,
        };
        want(list.byte(), image, Differs::Frame)?;
        want(list.byte(), template, Differs::Frame)?;
        want(list.word(), place, Differs::Frame)?;
        want(list.word(), slots, Differs::Frame)?;
        for j in 0..slots as usize {
            let slot = j.saturating_add(base as usize);
            self.entry(list, SLOTS_AT, slot, Differs::Slot)?;
        }
        Ok(())
    }

    fn frames(self, list: &mut List<'_>) -> Result<(), Differs> {
        let n = self.counts.depths.frames;
        want(list.word(), n as u64, Differs::Frames)?;
        let mut ip = Some(self.counts.depths.ip);
        for i in (0..n).rev() {
            self.frame(list, i, ip)?;
            ip = None;
        }
        Ok(())
    }

    fn handlers(self, list: &mut List<'_>) -> Result<(), Differs> {
        let n = self.counts.depths.handlers;
        want(list.word(), n as u64, Differs::Handlers)?;
        for i in (0..n).rev() {
            let [catch, operands, frames] = row::<3>(&self.stores.stacks, HANDLERS_AT, i).ok_or(
                Differs::Handler,
            )?;
            want(list.word(), catch, Differs::Handler)?;
            want(list.word(), operands, Differs::Handler)?;
            want(list.word(), frames, Differs::Handler)?;
        }
        Ok(())
    }

    fn functions(self, list: &mut List<'_>) -> Result<(), Differs> {
        let n = self.counts.sizes.functions;
        want(list.word(), n as u64, Differs::Functions)?;
        for i in 0..n {
            let [image, template] = row::<2>(&self.stores.heap, 0, i).ok_or(Differs::Function)?;
            want(list.byte(), image, Differs::Function)?;
            want(list.byte(), template, Differs::Function)?;
        }
        Ok(())
    }

    fn find_property(self, owner: u64, key: &[u8]) -> Option<Value> {
        for i in 0..self.counts.sizes.properties {
            let [of, place, length, kind, a, b] = row::<6>(&self.stores.heap, PROPERTIES_AT, i)?;
            if of == owner && is_text(&self.stores.text, place, length, key) {
                return Some(decoded(kind, a, b));
            }
        }
        None
    }

    // A head of 1 stands for the name `console`, which the text store does not have.
    fn find_global(self, name: &[u8]) -> Option<Value> {
        for i in 0..self.counts.sizes.globals {
            let [head, place, length, kind, a, b] = row::<6>(&self.stores.heap, GLOBALS_AT, i)?;
            let found = if head == 1 {
                name == b"console".as_slice()
            } else {
                is_text(&self.stores.text, place, length, name)
            };
            if found {
                return Some(decoded(kind, a, b));
            }
        }
        None
    }

    fn property(self, list: &mut List<'_>, owner: u64) -> Result<(), Differs> {
        let key = list.text().ok_or(Differs::Property)?;
        let v = self.find_property(owner, key).ok_or(Differs::Property)?;
        self.value(list, v, Differs::Property)
    }

    // Object i; how many properties it has.
    fn object(self, list: &mut List<'_>, i: usize) -> Result<u64, Differs> {
        let [kind] = row::<1>(&self.stores.heap, OBJECTS_AT, i).ok_or(Differs::Object)?;
        want(list.byte(), kind, Differs::Object)?;
        let n = list.word();
        for _ in 0..n {
            self.property(list, i as u64)?;
        }
        Ok(n)
    }

    // There are no more properties than those that the list has.
    fn objects(self, list: &mut List<'_>) -> Result<(), Differs> {
        let n = self.counts.sizes.objects;
        want(list.word(), n as u64, Differs::Objects)?;
        let mut properties: u64 = 0;
        for i in 0..n {
            properties = properties.saturating_add(self.object(list, i)?);
        }
        let held = self.counts.sizes.properties as u64;
        want(properties, held, Differs::Properties)
    }

    fn globals(self, list: &mut List<'_>) -> Result<(), Differs> {
        let n = self.counts.sizes.globals;
        want(list.word(), n as u64, Differs::Globals)?;
        for _ in 0..n {
            let name = list.text().ok_or(Differs::Global)?;
            let v = self.find_global(name).ok_or(Differs::Global)?;
            self.value(list, v, Differs::Global)?;
        }
        Ok(())
    }

    // All but the output, which stands between the globals and the counts of slots and text bytes.
    pub fn state(self, list: &mut List<'_>) -> Result<(), Differs> {
        self.operands(list)?;
        self.frames(list)?;
        self.handlers(list)?;
        self.functions(list)?;
        self.objects(list)?;
        self.globals(list)
    }

    pub fn in_use(self, list: &mut List<'_>) -> Result<(), Differs> {
        want(list.word(), self.counts.depths.slots as u64, Differs::Slots)?;
        want(list.word(), self.counts.text as u64, Differs::Text)
    }
}

// n bytes with their count, as drain writes them.
pub fn drained(list: &mut List<'_>, out: &[u8], n: usize, what: Differs) -> Result<(), Differs> {
    let listed = list.text().ok_or(what)?;
    if is_text(out, 0, n as u64, listed) {
        Ok(())
    } else {
        Err(what)
    }
}
