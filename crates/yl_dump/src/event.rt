//! Prints events.
ghost use Rattle.std.specs.Prelude.{◌≡◌, ◌++◌, OnOk};
ghost use Rattle.std.specs.List.{flat_map};
ghost use Rattle.yl_dump.specs.EventLine.{sign_of, content_text, anchor_text, tag_text, place_shown, event_line};

use crate::group::Group;
use crate::names::value_opening;
use crate::page::Page;
use crate::quoting::print_escaped;
use std::alloc::{AllocError, Allocator};
use yl_events::{Outline, Shape};

// Returns the sign of the kind of an event.
fn shape_sign(shape: Shape) -> &'static str
    ensures { result.now ≡ sign_of shape }
{
    match shape {
        Shape::DocumentStart => "+DOC",
        Shape::DocumentEnd => "-DOC",
        Shape::SequenceStart => "+SEQ",
        Shape::SequenceEnd => "-SEQ",
        Shape::MappingStart => "+MAP",
        Shape::MappingEnd => "-MAP",
        Shape::Alias => "=ALI",
        Shape::Scalar(_) | Shape::Empty => "=VAL",
    }
}

// Prints the part of an event between its properties and its position: the name of an alias, or the
// value of a scalar.
fn print_content<A: Allocator + Copy>(
    page: &mut Page<A>,
    group: &Group<A>,
    outline: &Outline,
) -> Result<(), AllocError>
    ensures { OnOk result (page.new ≡ page.old ++ content_text group.now outline.now.kind outline.now.place) }
{
    let value = match outline.place {
        Some(index) => group.value(index as usize),
        None => "",
    };
    match outline.kind {
        Shape::Alias => {
            page.text(" *")?;
            page.text(value)?;
        }
        Shape::Scalar(style) => {
            page.text(value_opening(style))?;
            print_escaped(page, value)?;
            page.byte(b'"')?;
        }
        Shape::Empty => page.text(" :\"\"")?,
        _ => {}
    }
    Ok(())
}

// Prints the anchor of a node, if it has one.
fn print_anchor<A: Allocator + Copy>(
    page: &mut Page<A>,
    group: &Group<A>,
    anchor: Option<u32>,
) -> Result<(), AllocError>
    ensures { OnOk result (page.new ≡ page.old ++ anchor_text group.now anchor) }
{
    if let Some(index) = anchor {
        page.text(" &")?;
        page.text(group.value(index as usize))?;
    }
    Ok(())
}

// Prints the sign of a tag, if `is_tagged` is set.
fn print_tag<A: Allocator + Copy>(page: &mut Page<A>, is_tagged: bool) -> Result<(), AllocError>
    ensures { OnOk result (page.new ≡ page.old ++ tag_text is_tagged) }
{
    if is_tagged {
        page.text(" <>")?;
    }
    Ok(())
}

// Prints the position of a node's content, if it has one and it starts in the line of the group.
fn print_place<A: Allocator + Copy>(
    page: &mut Page<A>,
    group: &Group<A>,
    place: Option<u32>,
) -> Result<(), AllocError>
    ensures { OnOk result (page.new ≡ page.old ++ place_shown group.now place) }
{
    match place {
        Some(index) => group.print_place(page, index as usize),
        None => Ok(()),
    }
}

// Prints an event as a line in the notation of the YAML test suite, followed by the position of its
// content.
fn print_event<A: Allocator + Copy>(
    page: &mut Page<A>,
    group: &Group<A>,
    outline: &Outline,
) -> Result<(), AllocError>
    ensures { OnOk result (page.new ≡ page.old ++ event_line group.now outline.now) }
{
    page.text(shape_sign(outline.kind))?;
    print_anchor(page, group, outline.anchor)?;
    print_tag(page, outline.is_tagged)?;
    print_content(page, group, outline)?;
    print_place(page, group, outline.place)?;
    page.byte(b'\n')
}

/// Prints events whose lexemes are in the group. The only error is out of memory.
pub fn print_events<A: Allocator + Copy>(
    page: &mut Page<A>,
    group: &Group<A>,
    outlines: &[Outline],
) -> Result<(), AllocError>
    ensures { OnOk result (page.new ≡ page.old ++ flat_map (event_line group.now) outlines.now) }
{
    for outline in outlines {
        print_event(page, group, outline)?;
    }
    Ok(())
}
