//! Builds a document in a table, lays two overlays over it, changes and cuts properties through them, and shows that the
//! table beneath is untouched; then tries both sides of each limit of the stores.
#![tactic(auto)]

use lexer::refusal::Reason;
use overlay::overlay::Overlay;
use store::store::Store;
use store::value::Value;
use table::cell::Cell;
use table::node_table::NodeTable;

/// The number of a put's answer: 0, or that of its reason.
fn answer_number(answer: Result<(), Reason>) -> u8 {
    answer.err().map_or(0, u8::from)
}

fn put<S: Store>(
    rt: &HostRuntime,
    store: &mut S,
    object: u16,
    name: &str,
    value: Value,
) -> anyhow::Result<()> {
    let number = answer_number(store.put(object, name.as_bytes(), value));
    let left = store.left();
    println!(rt; "  put {object}.{name}: {number}, {left} writes left")?;
    Ok(())
}

fn show<S: Store>(rt: &HostRuntime, store: &S, object: u16, name: &str) -> anyhow::Result<()> {
    match store.get(object, name.as_bytes()) {
        Ok(Value::Nothing) => println!(rt; "  {object}.{name} holds nothing")?,
        Ok(Value::Number(number)) => println!(rt; "  {object}.{name} = {number}")?,
        Ok(Value::Reference(target)) => println!(rt; "  {object}.{name} -> {target}")?,
        Err(reason) => {
            let number = u8::from(reason);
            println!(rt; "  {object}.{name} is refused: {number}")?;
        }
    }
    Ok(())
}

/// The properties that the scenario speaks of.
fn show_all<S: Store>(rt: &HostRuntime, store: &S) -> anyhow::Result<()> {
    show(rt, store, 0, "north")?;
    show(rt, store, 0, "office")?;
    show(rt, store, 1, "free")?;
    Ok(())
}

/// Lays an overlay over the store, changes one property and cuts another, and hands the store back.
fn change_over<S: Store + Drop>(rt: &HostRuntime, below: S) -> anyhow::Result<S> {
    let mut upper = Overlay::new(below);
    println!(rt; "upper overlay")?;
    put(rt, &mut upper, 1, "free", Value::Number(-7))?;
    put(rt, &mut upper, 0, "north", Value::Nothing)?;
    show_all(rt, &upper)?;
    Ok(upper.into_below())
}

/// Lays two overlays over the store, and hands the store back.
fn two_over<S: Store + Drop>(rt: &HostRuntime, below: S) -> anyhow::Result<S> {
    let mut lower = Overlay::new(below);
    println!(rt; "lower overlay")?;
    put(rt, &mut lower, 1, "free", Value::Number(4))?;
    put(rt, &mut lower, 0, "office", Value::Nothing)?;
    show_all(rt, &lower)?;
    let lower = change_over(rt, lower)?;
    println!(rt; "lower overlay again")?;
    show_all(rt, &lower)?;
    Ok(lower.into_below())
}

/// Builds a document in an empty store, and lays two overlays over it.
fn document<S: Store + Drop>(rt: &HostRuntime, empty: S) -> anyhow::Result<()> {
    let mut table = empty;
    println!(rt; "table")?;
    put(rt, &mut table, 0, "north", Value::Reference(1))?;
    put(rt, &mut table, 0, "office", Value::Reference(2))?;
    put(rt, &mut table, 1, "free", Value::Number(5))?;
    show_all(rt, &table)?;
    let table = two_over(rt, table)?;
    println!(rt; "table again")?;
    show_all(rt, &table)?;
    let left = table.left();
    println!(rt; "  {left} writes left")?;
    Ok(())
}

fn letter(number: u16) -> u8 {
    b'a' + (number % 16) as u8
}

/// Three letters: another name for each number below 4,096.
fn name_of(number: u16) -> [u8; 3] {
    [letter(number / 256), letter(number / 16), letter(number)]
}

/// How many of the first n names the root has with their own numbers.
fn held<S: Store>(store: &S, n: u16) -> usize {
    (0..n)
        .filter(|&number| store.get(0, &name_of(number)) == Ok(Value::Number(number.into())))
        .count()
}

/// Puts a number on one new property after another until the store refuses; says how many it took, by what number it
/// refused, and how many of them it holds then.
fn fill<S: Store>(rt: &HostRuntime, store: &mut S) -> anyhow::Result<()> {
    let taken = (0..4096)
        .find(|&number| store
            .put(0, &name_of(number), Value::Number(number.into()))
            .is_err())
        .unwrap_or(4096);
    let number = answer_number(store.put(0, &name_of(taken), Value::Number(0)));
    let held = held(store, taken);
    println!(rt; "  takes {taken} new properties, then {number}; holds {held} of them")?;
    Ok(())
}

/// What a store says of objects, references and names at its limits.
fn edges<S: Store>(rt: &HostRuntime, store: &mut S) -> anyhow::Result<()> {
    let count = store.count();
    let left = store.left();
    println!(rt; "  {count} objects, {left} writes left")?;
    let last = count.saturating_sub(1);
    put(rt, store, last, "a", Value::Reference(last))?;
    put(rt, store, count, "a", Value::Number(1))?;
    put(rt, store, 0, "a", Value::Reference(count))?;
    put(rt, store, 0, "abcdefghijklmnopqrstuvwx", Value::Number(1))?;
    put(rt, store, 0, "abcdefghijklmnopqrstuvwxy", Value::Number(1))?;
    put(rt, store, count, "9", Value::Number(1))?;
    show(rt, store, last, "a")?;
    show(rt, store, count, "9")?;
    show(rt, store, 0, "9")?;
    fill(rt, store)
}

fn edges_over<S: Store + Drop>(rt: &HostRuntime, below: S) -> anyhow::Result<()> {
    println!(rt; "an overlay over it")?;
    edges(rt, &mut Overlay::new(below))
}

/// The limits of a table of so many cells, made for n objects, and of an overlay over such a table.
fn table_edges(rt: &HostRuntime, cells: &mut [Cell], n: u16) -> anyhow::Result<()> {
    let len = cells.len();
    println!(rt; "table of {len} cells for {n} objects")?;
    {
        let mut table = NodeTable::new(cells, n);
        edges(rt, &mut table)?;
    }
    edges_over(rt, NodeTable::new(cells, n))
}

fn main(rt: HostRuntime) -> anyhow::Result<()> {
    let mut cells = vec![in rt.alloc(); Cell::blank(); 4097]?;
    document(&rt, NodeTable::new(&mut cells[0..256], 3))?;
    table_edges(&rt, &mut cells[0..4], 0)?;
    table_edges(&rt, &mut cells[0..5], 1)?;
    table_edges(&rt, &mut cells[0..100], 1024)?;
    table_edges(&rt, &mut cells[0..4096], 1025)?;
    table_edges(&rt, &mut cells[0..4097], 3)?;
    Ok(())
}
