//! The tables that headers name.

use std::alloc::{AllocError, Global};
use std::collections::BTreeMap;

/// A table, or a list of tables.
#[derive(Drop)]
struct Section {
    /// The tables in it, by their names.
    below: BTreeMap<String, usize>,
    /// How many elements it has, if it is a list.
    count: usize,
    /// The last of them.
    last: Option<usize>,
}

impl Section {
    fn new(alloc: Global) -> Section {
        Section {
            below: BTreeMap::new(alloc),
            count: 0,
            last: None,
        }
    }
}

/// The tables that the headers of a text name by now, and the one that the last header has reached.
#[derive(Drop)]
pub(crate) struct Sections {
    all: Vec<Section>,
    reached: Option<usize>,
}

impl Sections {
    /// No tables.
    pub(crate) fn new(alloc: Global) -> Sections {
        Sections {
            all: Vec::new(alloc),
            reached: None,
        }
    }

    /// A header begins.
    pub(crate) fn restart(&mut self, alloc: Global) -> Result<(), AllocError> {
        if self.all.is_empty() {
            self.all.push(Section::new(alloc))?;
        }
        self.reached = Some(0);
        Ok(())
    }

    /// The header goes on by a part of this name. With `begins` an element begins there. In a list
    /// the header is then in its last element, whose position is returned.
    pub(crate) fn enter(
        &mut self,
        alloc: Global,
        name: Option<&str>,
        begins: bool,
    ) -> Result<Option<usize>, AllocError> {
        let Some(index) = self.at_name(alloc, name)? else {
            self.reached = None;
            return Ok(None);
        };
        if begins {
            self.begin_element(alloc, index)?;
        }
        let Some(section) = self.all.get(index) else {
            return Ok(None);
        };
        let Some(last) = section.last else {
            self.reached = Some(index);
            return Ok(None);
        };
        let position = section.count.checked_sub(1);
        self.reached = Some(last);
        Ok(position)
    }

    /// The table of this name in the one that is reached, a new one if need be.
    fn at_name(&mut self, alloc: Global, name: Option<&str>) -> Result<Option<usize>, AllocError> {
        let (Some(name), Some(reached)) = (name, self.reached) else {
            return Ok(None);
        };
        if let Some(section) = self.all.get(reached)
            && let Some(index) = section.below.get(name)
        {
            return Ok(Some(*index));
        }
        let index = self.all.len();
        self.all.push(Section::new(alloc))?;
        let name = String::from_str(alloc, name)?;
        if let Some(section) = self.all.get_mut(reached) {
            section.below.insert(name, index)?;
        }
        Ok(Some(index))
    }

    /// One more element of the list.
    fn begin_element(&mut self, alloc: Global, index: usize) -> Result<(), AllocError> {
        let element = self.all.len();
        self.all.push(Section::new(alloc))?;
        if let Some(section) = self.all.get_mut(index) {
            section.count = section.count.saturating_add(1);
            section.last = Some(element);
        }
        Ok(())
    }
}
