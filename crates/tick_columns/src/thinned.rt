//! Items that come one after another, few of which are kept.

ghost use Rattle.std.specs.Prelude.{◌≡◌, ◌++◌, ◌∷◌, ◌<◌, ◌≤◌, [], All, List, Option, Some, None, length, option_to_list, IfOk, OnOk, OnErr, ℕ};
ghost use Rattle.tick_columns.specs.Columns.{IsLast, IsThinned, columns, no_columns};
ghost use Rattle.tick_columns.specs.declared.column.Column.{Column};
ghost use Rattle.tick_columns.specs.inside.Joining.{IsWidened, IsWider, joined, renewed};

use crate::column::Column;
use crate::timed::Timed;
use std::alloc::{AllocError, Global};
use std::marker::Model;

/// The most columns.
const MOST: usize = 202;

/// Items that come one after another, in columns of as many ticks each as make them few: of each
/// column the last item is kept, and how many came before it.
#[derive(Drop)]
pub struct Thinned<T> {
    ticks: u32,
    earlier: Vec<Column<T>>,
    latest: Option<Column<T>>,
}

impl<T> Model for Thinned<T> {
    ghost use Rattle.tick_columns.specs.Columns.{Columns};

    ghost Value = { Columns T };

    ghost view = { λ t. record { ticks = t.ticks; earlier = t.earlier.items; latest = t.latest } };
}

impl<T: Copy + Timed> Thinned<T> {
    /// No item. No memory is taken.
    pub fn new(alloc: Global) -> Thinned<T>
        ensures none { result ≡ no_columns }
        ensures stands { IsThinned T.time [] result }
    {
        Thinned {
            ticks: 1,
            earlier: Vec::new(alloc),
            latest: None,
        }
    }

    /// How many ticks a column has.
    pub fn ticks(&self) -> u32
        ensures { result ≡ self.now.ticks }
    {
        self.ticks
    }

    /// The columns before the latest one, the earliest first.
    pub fn earlier(&self) -> &[Column<T>]
        ensures { result.now ≡ self.now.earlier }
    {
        self.earlier.as_slice()
    }

    /// The latest column.
    pub fn latest(&self) -> Option<Column<T>>
        ensures { result ≡ self.now.latest }
    {
        self.latest
    }

    /// The last item.
    pub fn last(&self) -> Option<T>
        ensures { (items : List T) → IsThinned T.time items self.now → IsLast items result }
    {
        match self.latest {
            Some(column) => Some(column.last),
            None => None,
        }
    }

    /// An item more, which is not before those that came. An error leaves the items before.
    pub fn add(&mut self, item: T) -> Result<(), AllocError>
        ensures added { (items : List T) → IsThinned T.time items self.old
            → All (λ x. T.time x ≤ T.time item) items
            → OnOk result (IsThinned T.time (items ++ item ∷ []) self.new) }
        ensures kept { (items : List T) → IsThinned T.time items self.old
            → OnErr result (IsThinned T.time items self.new) }
    {
        self.make_room()?;
        self.join(Column {
            before: 0,
            last: item,
        })
    }

    /// The last item becomes another one of its time.
    pub fn renew(&mut self, item: T)
        ensures { (front : List T) (x : T) → IsThinned T.time (front ++ x ∷ []) self.old
            → T.time item ≡ T.time x → IsThinned T.time (front ++ item ∷ []) self.new }
    {
        self.renew_latest(item);
    }

    /// The last item of the latest column becomes another one.
    fn renew_latest(&mut self, item: T)
        ensures { self.new ≡ renewed item self.old }
    {
        match self.latest {
            None => {}
            Some(latest) => {
                self.latest = Some(Column {
                    before: latest.before,
                    last: item,
                });
            }
        }
    }

    /// Columns become wider until there is room for one more.
    fn make_room(&mut self) -> Result<(), AllocError>
        ensures same { IsWidened T.time self.old self.new }
        ensures room { OnOk result (length (columns self.new) < 202) }
    {
        for _ in 0..32 {
            if self.len() < MOST {
                return Ok(());
            }
            self.widen()?;
        }
        Err(AllocError)
    }

    /// How many columns there are.
    fn len(&self) -> usize
        ensures { result ≡ length (columns self.now) }
    {
        match self.latest {
            Some(_) => self.earlier.len() + 1,
            None => self.earlier.len(),
        }
    }

    /// Columns become twice as wide. An error leaves them as they were.
    fn widen(&mut self) -> Result<(), AllocError>
        ensures { IsWidened T.time self.old self.new }
    {
        *self = self.wider()?;
        Ok(())
    }

    /// The same items in columns that are twice as wide.
    fn wider(&self) -> Result<Thinned<T>, AllocError>
        ensures { IfOk result (λ wider. IsWidened T.time self.now wider) }
    {
        let mut wider = self.none_wider()?;
        wider.join_all(self.earlier())?;
        wider.join_any(self.latest())?;
        Ok(wider)
    }

    /// No item, in columns that are twice as wide.
    fn none_wider(&self) -> Result<Thinned<T>, AllocError>
        ensures { IfOk result (λ wider. IsWider T.time self.now.ticks [] wider) }
    {
        Ok(Thinned {
            ticks: self.ticks.checked_mul(2).ok_or(AllocError)?,
            earlier: Vec::new(*self.earlier.allocator()),
            latest: None,
        })
    }

    /// Columns come, one after the other.
    fn join_all(&mut self, columns: &[Column<T>]) -> Result<(), AllocError>
        ensures { (ticks : ℕ) (before : List (Column T)) → IsWider T.time ticks before self.old
            → OnOk result (IsWider T.time ticks (before ++ columns.now) self.new) }
    {
        for column in columns {
            self.join(*column)?;
        }
        Ok(())
    }

    /// A column comes, if there is one.
    fn join_any(&mut self, column: Option<Column<T>>) -> Result<(), AllocError>
        ensures { (ticks : ℕ) (before : List (Column T)) → IsWider T.time ticks before self.old
            → OnOk result (IsWider T.time ticks (before ++ option_to_list column) self.new) }
    {
        match column {
            Some(column) => self.join(column),
            None => Ok(()),
        }
    }

    /// A column comes, or what it has comes to the latest one, where that is the same. An error leaves
    /// all as it was.
    fn join(&mut self, column: Column<T>) -> Result<(), AllocError>
        ensures joined { OnOk result (self.new ≡ joined T.time column self.old) }
        ensures kept { OnErr result (self.new ≡ self.old) }
    {
        let Some(latest) = self.latest else {
            self.latest = Some(column);
            return Ok(());
        };
        if latest.place(self.ticks) == column.place(self.ticks) {
            self.latest = Some(latest.and(column)?);
            return Ok(());
        }
        self.earlier.push(latest)?;
        self.latest = Some(column);
        Ok(())
    }
}
