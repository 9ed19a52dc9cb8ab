//! Calls about names.

use crate::answer::{MEMORY, NONE, OTHER, of_change, one};
use crate::word::{Word, are, text, texts};
use frame_wire::{Row, Text};
use hub_terms::Hub;
use std::alloc::{AllocError, Global};

pub(crate) fn create<H: Hub>(alloc: Global, hub: &mut H, name: Word) -> i64 {
    match text(alloc, name) {
        Some(name) => of_change(hub.create(&name)),
        None => MEMORY,
    }
}

pub(crate) fn delete<H: Hub>(alloc: Global, hub: &mut H, name: Word) -> i64 {
    match text(alloc, name) {
        Some(name) => of_change(hub.delete(&name)),
        None => MEMORY,
    }
}

pub(crate) fn delete_super<H: Hub>(alloc: Global, hub: &mut H, name: Word) -> i64 {
    match text(alloc, name) {
        Some(name) => of_change(hub.delete_super(&name)),
        None => MEMORY,
    }
}

fn create_of<H: Hub>(
    alloc: Global,
    hub: &mut H,
    name: &Text,
    parts: &[Word],
    keys: &[Word],
) -> Option<i64> {
    let parts = texts(alloc, parts)?;
    let keys = texts(alloc, keys)?;
    Some(of_change(hub.create_super(name, &parts, &keys)))
}

pub(crate) fn create_super<H: Hub>(
    alloc: Global,
    hub: &mut H,
    name: Word,
    parts: &[Word],
    keys: &[Word],
) -> i64 {
    match text(alloc, name) {
        Some(name) => create_of(alloc, hub, &name, parts, keys).unwrap_or(MEMORY),
        None => MEMORY,
    }
}

/// How many names there are, where they are the wanted ones.
fn of_names(told: Result<Option<Row<Text>>, AllocError>, want: &[&[u8]]) -> i64 {
    match told {
        Ok(Some(names)) => {
            if are(names.as_slice(), want) {
                one(want.len() as u64)
            } else {
                OTHER
            }
        }
        Ok(None) => NONE,
        Err(_) => MEMORY,
    }
}

pub(crate) fn parts<H: Hub>(alloc: Global, hub: &mut H, name: Word, want: &[&[u8]]) -> i64 {
    match text(alloc, name) {
        Some(name) => of_names(hub.parts(&name), want),
        None => MEMORY,
    }
}

fn route_of<H: Hub>(hub: &mut H, key: &Text, name: &Text, want: &[&[u8]]) -> i64 {
    of_names(hub.route(key, name), want)
}

pub(crate) fn route<H: Hub>(
    alloc: Global,
    hub: &mut H,
    key: Word,
    name: Word,
    want: &[&[u8]],
) -> i64 {
    match (text(alloc, key), text(alloc, name)) {
        (Some(key), Some(name)) => route_of(hub, &key, &name, want),
        _ => MEMORY,
    }
}
