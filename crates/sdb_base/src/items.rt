ghost use Rattle.std.specs.Prelude.{◌≡◌, ◌↔◌, [], ◌∷◌, ◌++◌, length, IsTrue, IfOk, OnOk, OnErr};

use crate::OutOfMemory;
use std::alloc::Global;
use std::marker::{Model, PhantomData};

/// What can be copied where there is memory.
pub trait TryCopy: Drop + Sized {
    /// An equal value. `OutOfMemory` comes only for want of memory.
    fn copy(&self, alloc: Global) -> Result<Self, OutOfMemory>
        ensures { IfOk result (λ c. c ≡ self.now) };
}

/// A list, in the order in which its items were pushed. Lists of one type of items whose meanings differ have
/// `Kind`s of their own, and so types of their own.
#[derive(Debug, Drop)]
pub struct Sequence<T, Kind> {
    pub(crate) items: Vec<T>,
    kind: PhantomData<Kind>,
}

/// The items mean what their type says.
#[derive(Debug, Clone, Copy)]
pub struct Typed;

/// A list of items that mean what their type says.
pub type Items<T> = Sequence<T, Typed>;

impl<T, Kind> Model for Sequence<T, Kind> {
    ghost use Rattle.std.specs.Prelude.{List};
    ghost use Rattle.std.specs.Coded.{coded_list};

    ghost Value = { List T };

    ghost coded = { coded_list T.code };

    ghost view = { λ it. it.items.items };
}

impl<T, Kind> Sequence<T, Kind> {
    /// An empty list.
    pub fn new(alloc: Global) -> Sequence<T, Kind>
        ensures { result ≡ [] }
    {
        Sequence::from_vec(Vec::new(alloc))
    }

    /// The list of `items`, without taking memory.
    pub fn from_vec(items: Vec<T>) -> Sequence<T, Kind>
        ensures { result ≡ items.items }
    {
        Sequence {
            items,
            kind: PhantomData,
        }
    }

    /// The items, without taking memory.
    pub fn into_vec(self) -> Vec<T>
        ensures { result.items ≡ self }
    {
        let Sequence { items, .. } = self;
        items
    }

    /// The items in their order.
    pub fn as_slice(&self) -> &[T]
        ensures { result.now ≡ self.now }
    {
        self.items.as_slice()
    }

    /// How many items there are.
    pub fn len(&self) -> usize
        ensures { result ≡ length self.now }
    {
        self.items.len()
    }

    /// Whether there is no item.
    pub fn is_empty(&self) -> bool
        ensures { IsTrue result ↔ (self.now ≡ []) }
    {
        self.items.is_empty()
    }
}

impl<T: Drop, Kind> Sequence<T, Kind> {
    /// Adds an item at the end. An `Err` changes nothing, and drops the item.
    pub fn push(&mut self, item: T) -> Result<(), OutOfMemory>
        ensures ok { OnOk result (self.new ≡ self.old ++ item ∷ []) }
        ensures err { OnErr result (self.new ≡ self.old) }
    {
        self.items.push(item)?;
        Ok(())
    }
}

impl<T: TryCopy> Sequence<T, Typed> {
    /// A list of the copied items.
    pub fn from_slice(alloc: Global, items: &[T]) -> Result<Items<T>, OutOfMemory>
        ensures { IfOk result (λ it. it ≡ items.now) }
    {
        let mut copied = Items::new(alloc);
        for item in items {
            copied.push(item.copy(alloc)?)?;
        }
        Ok(copied)
    }
}

impl<T: TryCopy> TryCopy for Sequence<T, Typed> {
    fn copy(&self, alloc: Global) -> Result<Items<T>, OutOfMemory> {
        Items::from_slice(alloc, self.as_slice())
    }
}
