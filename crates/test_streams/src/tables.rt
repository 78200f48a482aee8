//! Calls of a table of resources.
use std::alloc::{AllocError, Global};
use test_support::{Asked, Rendered, rendered, unknown};
use wasi_streams::{Entry, Resource, ResourceTable, TableError, TableRefused};

/// `MAX: CALL; CALL ..`: the answers of calls of a table of so many entries. A number stands for the one that was given
/// so many pushes before it in the line, of which the first is 0.
pub fn table_line(asked: &Asked<'_>) -> Rendered {
    let alloc = asked.alloc;
    let (max, calls) = asked.rest.split_once(": ").unwrap_or((asked.rest, ""));
    let mut table = ResourceTable::with_max(alloc, max.parse::<u32>().unwrap_or(0));
    let mut given = Vec::new(alloc);
    let mut text = String::new(alloc);
    for (before, one) in calls.split("; ").enumerate() {
        if before > 0 {
            text.push_str("; ")?;
        }
        let answer = table_call(&mut table, &mut given, &Asked::of(alloc, one))?;
        text.push_str(answer.as_str())?;
    }
    Ok(text)
}

fn table_call(table: &mut ResourceTable, given: &mut Vec<Resource>, asked: &Asked<'_>) -> Rendered {
    let alloc = asked.alloc;
    match asked.what {
        "push" => push(table, given, asked),
        "reserve" => match table.reserve(asked.rest.parse::<u32>().unwrap_or(0)) {
            Ok(()) => String::from_str(alloc, "ok"),
            Err(error) => refused(alloc, error),
        },
        "live" => rendered(alloc, &table.live()),
        _ => match given.get(asked.rest.parse::<usize>().unwrap_or(0)) {
            Some(resource) => of_resource(table, *resource, asked),
            None => unknown(alloc),
        },
    }
}

fn push(table: &mut ResourceTable, given: &mut Vec<Resource>, asked: &Asked<'_>) -> Rendered {
    let alloc = asked.alloc;
    let entry = match asked.rest {
        "stdin" => Entry::Stdin,
        "stdout" => Entry::Stdout,
        _ => Entry::Stderr,
    };
    match table.push(entry) {
        Ok(resource) => {
            given.push(resource)?;
            String::from_str(alloc, "ok")
        }
        Err(TableRefused { error, entry }) => {
            let entry = kind(&entry);
            format!(in alloc; "{error:?} {entry}")
        }
    }
}

fn of_resource(table: &mut ResourceTable, resource: Resource, asked: &Asked<'_>) -> Rendered {
    let alloc = asked.alloc;
    match asked.what {
        "get" => match table.get(resource) {
            Ok(entry) => String::from_str(alloc, kind(entry)),
            Err(error) => refused(alloc, error),
        },
        "delete" => match table.delete(resource) {
            Ok(entry) => String::from_str(alloc, kind(&entry)),
            Err(error) => refused(alloc, error),
        },
        "input" => match table.input(resource) {
            Ok(_) => String::from_str(alloc, "ok"),
            Err(error) => refused(alloc, error),
        },
        "output" => match table.output(resource) {
            Ok(_) => String::from_str(alloc, "ok"),
            Err(error) => refused(alloc, error),
        },
        _ => unknown(alloc),
    }
}

fn kind(entry: &Entry) -> &'static str {
    match entry {
        Entry::Descriptor(_) => "descriptor",
        Entry::Input(_) => "input",
        Entry::Output(_) => "output",
        Entry::Readdir(_) => "readdir",
        Entry::Stdin => "stdin",
        Entry::Stdout => "stdout",
        Entry::Stderr => "stderr",
    }
}

fn refused(alloc: Global, error: TableError) -> Rendered {
    match error {
        TableError::Memory => Err(AllocError),
        _ => rendered(alloc, &error),
    }
}
