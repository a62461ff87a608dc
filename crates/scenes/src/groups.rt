//! Groups of words that have a name, as `root(links, changed)`.

use crate::fault::Fault;
use std::alloc::{AllocError, Global};

/// A byte of what a text spells, or the place of a parameter, from 0, which stands for many.
#[derive(Clone, Copy)]
pub enum Item {
    Byte(u8),
    Parameter(usize),
}

/// A named group: what it spells with what is given for its parameters.
#[derive(Drop)]
struct Group<'a> {
    name: &'a str,
    parameters: usize,
    items: Vec<Item>,
}

/// All groups that have been named.
#[derive(Drop)]
pub struct Groups<'a> {
    groups: Vec<Group<'a>>,
}

impl<'a> Groups<'a> {
    pub fn new(alloc: Global) -> Groups<'a> {
        Groups {
            groups: Vec::new(alloc),
        }
    }

    /// Names a group, of which there is none with this name yet.
    pub fn add(&mut self, name: &'a str, parameters: usize, items: Vec<Item>) -> Result<(), Fault> {
        if self.find(name).is_some() {
            return Err(Fault::Line("a group has this name"));
        }
        self.groups.push(Group {
            name,
            parameters,
            items,
        })?;
        Ok(())
    }

    /// Adds what the group of this name spells, with what is given for its parameters.
    pub fn add_items(
        &self,
        items: &mut Vec<Item>,
        name: &str,
        given: &[Vec<Item>],
    ) -> Result<(), Fault> {
        let Some(group) = self.find(name) else {
            return Err(Fault::Line("no group has this name"));
        };
        if group.parameters != given.len() {
            return Err(Fault::Line("the group has more parameters, or fewer"));
        }
        add_with(items, &group.items, given)?;
        Ok(())
    }

    fn find(&self, name: &str) -> Option<&Group<'a>> {
        self.groups.iter().find(|group| group.name == name)
    }
}

/// Adds these items, with what is given for parameters.
fn add_with(items: &mut Vec<Item>, group: &[Item], given: &[Vec<Item>]) -> Result<(), AllocError> {
    for item in group {
        match item {
            Item::Byte(_) => items.push(*item)?,
            Item::Parameter(place) => {
                items.extend_from_slice(given.get(*place).map_or(&[], Vec::as_slice))?
            }
        }
    }
    Ok(())
}
