//! Commands as texts, with all that they hold.

use case_text::{CaseFault, Shown};
use comb_tree::{ListEntry, Op};
use command_set::{Command, Edit, Query, Refusal, RefusalText, Shoot};
use lattice_core::{Dir, Placement, V3, View};
use name_core::Name;
use object_set::{Body, KeptAttr, Object};
use put_form::push_put_line;
use solid_set::Solid;
use std::alloc::Global;

fn put_number(number: i64, out: &mut Shown) {
    out.put_byte(b' ');
    out.put_number(number);
}

fn put_point(point: V3, out: &mut Shown) {
    put_number(point.x, out);
    put_number(point.y, out);
    put_number(point.z, out);
}

fn put_name(name: &Name, out: &mut Shown) {
    out.put_byte(b' ');
    out.put(name.bytes());
}

/// Puts in a word, and names.
fn put_names(word: &[u8], names: &[Name], out: &mut Shown) {
    out.put(word);
    for name in names {
        put_name(name, out);
    }
}

fn operator_word(op: Op) -> &'static [u8] {
    match op {
        Op::U => b" u",
        Op::N => b" +",
        Op::Minus => b" -",
        Op::X => b" ^",
    }
}

/// Puts in a word, a name, and the operators and names of members; those that don't stand where they were made have a
/// star.
fn put_members(word: &[u8], name: &Name, members: &[ListEntry], out: &mut Shown) {
    out.put(word);
    put_name(name, out);
    for member in members {
        out.put(operator_word(member.op));
        put_name(&member.name, out);
        if member.placement != Placement::identity() {
            out.put_byte(b'*');
        }
    }
}

fn put_solid(solid: &Solid, out: &mut Shown) {
    match solid {
        Solid::Half(half) => {
            out.put(b" half");
            put_point(half.normal(), out);
            put_number(half.distance(), out);
        }
        Solid::Sphere(sphere) => {
            out.put(b" sphere");
            put_point(sphere.centre(), out);
            put_number(sphere.radius(), out);
        }
        Solid::Rcc(rcc) => {
            out.put(b" rcc");
            put_point(rcc.base(), out);
            put_point(rcc.height(), out);
            put_number(rcc.radius(), out);
        }
        Solid::Arb8(arb8) => {
            out.put(b" arb8");
            for vertex in arb8.vertices() {
                put_point(vertex, out);
            }
        }
    }
}

/// Puts in the written line of an object.
fn put_written(alloc: Global, name: &Name, body: &Body, out: &mut Shown) -> Result<(), CaseFault> {
    let mut line = Vec::new(alloc);
    push_put_line(alloc, name, body, &mut line)?;
    out.put_byte(b' ');
    out.put(&line);
    Ok(())
}

/// Puts in an object that is made.
fn put_make(alloc: Global, name: &Name, object: &Object, out: &mut Shown) -> Result<(), CaseFault> {
    out.put(b"make");
    put_name(name, out);
    if !object.kept().is_empty() {
        out.put(b" kept");
    }
    match object.body() {
        Body::Solid(solid) => {
            put_solid(solid, out);
            Ok(())
        }
        Body::Comb { .. } => put_written(alloc, name, object.body(), out),
    }
}

/// Puts in two names.
fn put_two(word: &[u8], one: &Name, other: &Name, out: &mut Shown) {
    out.put(word);
    put_name(one, out);
    put_name(other, out);
}

/// Puts in attributes that are kept.
fn put_pairs(name: &Name, pairs: &[KeptAttr], out: &mut Shown) {
    out.put(b"keep");
    put_name(name, out);
    for pair in pairs {
        put_name(&pair.name, out);
        out.put(b" {");
        out.put(pair.value.items());
        out.put_byte(b'}');
    }
}

/// Puts in the numbers of a matrix.
fn put_matrix(matrix: [i64; 16], out: &mut Shown) {
    for number in matrix {
        put_number(number, out);
    }
}

/// Puts in an edit of what is there.
fn put_change(edit: &Edit, out: &mut Shown) {
    match edit {
        Edit::RenameAll { old, new } => put_two(b"rename", old, new, out),
        Edit::Place {
            comb,
            member,
            placement,
        } => {
            put_two(b"place", comb, member, out);
            put_matrix(placement.placement().matrix(), out);
        }
        Edit::Set { name, setting } => {
            put_two(b"set", name, setting.key(), out);
            out.put_byte(b' ');
            out.put(setting.value());
        }
        Edit::Title { text } => {
            out.put(b"title ");
            out.put(text.bytes());
        }
        Edit::Keep { name, pairs } => put_pairs(name, pairs.items(), out),
        _ => out.put(b"edit"),
    }
}

fn put_edit(alloc: Global, edit: &Edit, out: &mut Shown) -> Result<(), CaseFault> {
    match edit {
        Edit::Make { name, object } => return put_make(alloc, name, object.object(), out),
        Edit::Region { name, list } => put_members(b"region", name, list.items(), out),
        Edit::Group { name, list } => put_members(b"group", name, list.items(), out),
        Edit::Remove { comb, members } => {
            out.put(b"remove");
            put_name(comb, out);
            put_names(b"", members.items(), out);
        }
        Edit::Kill { names } => put_names(b"kill", names.items(), out),
        _ => put_change(edit, out),
    }
    Ok(())
}

/// Puts in the text of a refusal.
fn put_refusal(refusal: &Refusal, out: &mut Shown) {
    let mut text = RefusalText::new();
    refusal.write_text(&mut text);
    out.put(text.bytes());
}

/// The word of a direction, behind a blank.
fn direction_word(dir: Dir) -> &'static [u8] {
    match dir {
        Dir::PlusX => b" +x",
        Dir::MinusX => b" -x",
        Dir::PlusY => b" +y",
        Dir::MinusY => b" -y",
        Dir::PlusZ => b" +z",
        Dir::MinusZ => b" -z",
    }
}

/// Puts in a view: its direction, its corner, its cell, and how many columns and rows it has.
fn put_view(view: &View, out: &mut Shown) {
    out.put(direction_word(view.dir));
    put_point(view.corner, out);
    put_number(view.cell, out);
    put_number(i64::from(view.w), out);
    put_number(i64::from(view.h), out);
}

fn put_shoot(shoot: &Shoot, out: &mut Shown) {
    match shoot {
        Shoot::Picture { file, view, names } => {
            out.put(b"picture");
            put_name(file, out);
            put_view(&view.view(), out);
            put_names(b"", names.items(), out);
        }
        Shoot::Check { view, names } => {
            out.put(b"check");
            put_view(&view.view(), out);
            put_names(b"", names.items(), out);
        }
        Shoot::Area { view, names } => {
            out.put(b"area");
            put_view(&view.view(), out);
            put_names(b"", names.items(), out);
        }
        Shoot::Edge { file, view, names } => {
            out.put(b"edges");
            put_name(file, out);
            put_view(&view.view(), out);
            put_names(b"", names.items(), out);
        }
    }
}

fn put_query(query: &Query, out: &mut Shown) {
    match query {
        Query::Names => out.put(b"names"),
        Query::Shot { ray, names } => {
            let ray = ray.ray();
            out.put(b"shot");
            out.put(direction_word(ray.dir));
            put_point(ray.origin, out);
            put_names(b"", names.items(), out);
        }
        Query::Slant { ray, names } => {
            let ray = ray.ray();
            out.put(b"slant");
            put_point(ray.origin, out);
            put_point(ray.direction(), out);
            put_names(b"", names.items(), out);
        }
        Query::List { names } => put_names(b"list", names.items(), out),
        Query::Tree { names } => put_names(b"tree", names.items(), out),
        Query::Save { file } => {
            out.put(b"save");
            put_name(file, out);
        }
    }
}

/// Puts in what a command holds.
pub fn put_command(alloc: Global, command: &Command, out: &mut Shown) -> Result<(), CaseFault> {
    match command {
        Command::Bad(refusal) => put_refusal(refusal, out),
        Command::Edit(edit) => return put_edit(alloc, edit, out),
        Command::Query(query) => put_query(query, out),
        Command::Shoot(shoot) => put_shoot(shoot, out),
    }
    Ok(())
}

/// Puts in a word and a count.
fn put_count(word: &[u8], count: usize, out: &mut Shown) {
    out.put(word);
    out.put_number(count);
}

fn outline_edit(edit: &Edit, out: &mut Shown) {
    match edit {
        Edit::Region { list, .. } => put_count(b"region ", list.items().len(), out),
        Edit::Group { list, .. } => put_count(b"group ", list.items().len(), out),
        Edit::Remove { members, .. } => put_count(b"remove ", members.items().len(), out),
        Edit::Kill { names } => put_count(b"kill ", names.items().len(), out),
        Edit::Set { setting, .. } => put_count(b"set ", setting.value().len(), out),
        _ => out.put(b"edit"),
    }
}

/// Puts in what a command is, and how many members or names it lists.
pub fn put_outline(command: &Command, out: &mut Shown) {
    match command {
        Command::Edit(edit) => outline_edit(edit, out),
        Command::Query(Query::Shot { names, .. }) => put_count(b"shot ", names.items().len(), out),
        Command::Query(_) => out.put(b"query"),
        Command::Shoot(Shoot::Picture { names, .. }) => {
            put_count(b"picture ", names.items().len(), out);
        }
        Command::Shoot(Shoot::Check { names, .. }) => {
            put_count(b"check ", names.items().len(), out);
        }
        Command::Shoot(_) => out.put(b"shoot"),
        Command::Bad(refusal) => put_refusal(refusal, out),
    }
}
