//! The unit of the latest lexemes of a line, which may become a key (YAML 1.2.2, 7.4.2 and 8.2.2).

ghost use Rattle.std.specs.Prelude.{◌≡◌, Some, IfOk};
ghost use Rattle.yl_lexeme.specs.Kept.{no_key_unit, property_pair, content_start, property_start, key_unit_behind};

use crate::lexeme::Kind;
use crate::stack::Stack;
use std::alloc::{AllocError, Allocator};
use std::marker::Model;

/// A property that is the latest lexeme.
#[derive(Clone, Copy)]
struct Property<T: Copy> {
    /// Whether it is an anchor. Else it is a tag.
    is_anchor: bool,
    /// Its position, if a key may begin there.
    start: Option<T>,
}

/// The position at which the unit of the latest lexemes of a line begins. A unit is a content with
/// its properties, or properties alone. A `T` stands for a position. By the law `unit_suffices`,
/// looking back over the line finds the same position.
#[derive(Drop)]
pub struct KeyUnit<T: Copy, A: Allocator + Copy> {
    /// The position at which the unit begins, if a key may begin there.
    unit: Option<T>,
    /// For each open bracket of the line, the position at which the unit of the bracket begins, if
    /// a key may begin there. The innermost bracket is on top.
    outer: Stack<Option<T>, A>,
    /// The latest lexeme, if it is a property.
    property: Option<Property<T>>,
}

impl<T: Copy, A: Allocator + Copy> Model for KeyUnit<T, A> {
    ghost use Rattle.yl_lexeme.specs.Kept.{KeyUnitValue, property_pair};

    ghost Value = { KeyUnitValue T };

    ghost view = { λ u. record { unit = u.unit; outer = u.outer; property = property_pair u.property } };
}

impl<T: Copy, A: Allocator + Copy> KeyUnit<T, A> {
    /// Creates the value for the start of a line.
    pub fn new(alloc: A) -> KeyUnit<T, A>
        ensures { result ≡ no_key_unit }
    {
        KeyUnit {
            unit: None,
            outer: Stack::new(alloc),
            property: None,
        }
    }

    /// Moves to the start of the next line, in which no lexeme was read.
    pub fn new_line(&mut self)
        ensures { self.new ≡ no_key_unit }
    {
        self.unit = None;
        self.outer.clear();
        self.property = None;
    }

    /// Returns the position at which a key begins whose last lexeme is the latest one, if there can
    /// be such a key.
    pub fn start(&self) -> Option<T>
        ensures { result ≡ self.now.unit }
    {
        self.unit
    }

    /// Passes a lexeme of the line. `own` is its position, if a key may begin there. The only error
    /// is out of memory.
    #[inline(always)]
    pub fn pass(&mut self, kind: Kind, own: Option<T>) -> Result<(), AllocError>
        ensures { IfOk result (λ _. self.new ≡ key_unit_behind kind own self.old) }
    {
        let unit = self.unit.take();
        let property = self.property.take();
        let start = content_start(own, unit, property);
        match kind {
            Kind::Scalar(_) | Kind::Alias => {
                self.unit = start;
                Ok(())
            }
            Kind::SeqOpen | Kind::MapOpen => self.outer.push(start),
            Kind::SeqClose | Kind::MapClose => {
                self.unit = self.outer.pop().flatten();
                Ok(())
            }
            Kind::Anchor => {
                self.pass_property(true, own, property);
                Ok(())
            }
            Kind::Tag => {
                self.pass_property(false, own, property);
                Ok(())
            }
            Kind::Directive
            | Kind::DocStart
            | Kind::DocEnd
            | Kind::Entry
            | Kind::Key
            | Kind::Value
            | Kind::Comma => Ok(()),
        }
    }

    /// Passes a property of the line. `property` is the lexeme before it, if that is a property.
    fn pass_property(&mut self, is_anchor: bool, own: Option<T>, property: Option<Property<T>>)
        ensures { self.new ≡ record {
          unit = property_start is_anchor own (property_pair property);
          outer = self.old.outer;
          property = Some (is_anchor, own);
        } }
    {
        self.unit = property_start(is_anchor, own, property);
        self.property = Some(Property {
            is_anchor,
            start: own,
        });
    }
}

/// Returns the position at which the unit begins whose content is the latest lexeme. `own` is the
/// position of the content, and `unit` is that of the properties directly before it.
fn content_start<T: Copy>(
    own: Option<T>,
    unit: Option<T>,
    property: Option<Property<T>>,
) -> Option<T>
    ensures { result ≡ content_start own unit (property_pair property) }
{
    match property {
        None => own,
        Some(_) => unit,
    }
}

/// Returns the position at which the properties begin of which the latest lexeme is the last.
fn property_start<T: Copy>(
    is_anchor: bool,
    own: Option<T>,
    property: Option<Property<T>>,
) -> Option<T>
    ensures { result ≡ property_start is_anchor own (property_pair property) }
{
    match property {
        Some(before) if before.is_anchor != is_anchor => before.start,
        _ => own,
    }
}
