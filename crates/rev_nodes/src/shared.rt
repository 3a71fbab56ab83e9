ghost use Rattle.std.specs.Prelude.{◌≡◌, [], IfOk};

use dsv_base::NoMemory;
use std::marker::Model;
use std::sync::Arc;

/// A list that several hold together, so that none of its items is copied. Contracts see it as a
/// list.
#[derive(Debug, Drop)]
pub struct Shared<T> {
    items: Option<Arc<Vec<T>>>,
}

impl<T> Model for Shared<T> {
    ghost use Rattle.std.specs.Prelude.{List, [], vec_items};
    ghost use Rattle.std.specs.Coded.{coded_list};
    ghost use Rattle.std.specs.Option.{option_map_or};
    ghost use Rattle.std.specs.Arc.{arc_value};

    ghost Value = { List T };

    ghost coded = { coded_list T.code };

    ghost view = { λ s. option_map_or (λ a. vec_items (arc_value a)) s.items [] };
}

impl<T: Drop> Shared<T> {
    /// No items.
    pub fn none() -> Shared<T>
        ensures { result ≡ [] }
    {
        Shared { items: None }
    }

    /// The items of `items`, which is moved. Its one error is want of memory.
    pub fn of(items: Vec<T>) -> Result<Shared<T>, NoMemory>
        ensures { IfOk result (λ shared. shared ≡ items.items) }
    {
        if items.is_empty() {
            return Ok(Shared { items: None });
        }
        let alloc = *items.allocator();
        let items = Arc::new(alloc, items)?;
        Ok(Shared { items: Some(items) })
    }

    /// The items, to be read.
    pub fn get(&self) -> &[T]
        ensures { result.now ≡ self.now }
    {
        match &self.items {
            None => &[],
            Some(items) => {
                let items: &Vec<T> = items;
                items.as_slice()
            }
        }
    }

    /// The same items once more, held together with these. Its one error is want of memory.
    pub fn share(&self) -> Result<Shared<T>, NoMemory>
        ensures { IfOk result (λ shared. shared ≡ self.now) }
    {
        match &self.items {
            None => Ok(Shared { items: None }),
            Some(items) => {
                let items = Arc::try_clone(items)?;
                Ok(Shared { items: Some(items) })
            }
        }
    }
}
