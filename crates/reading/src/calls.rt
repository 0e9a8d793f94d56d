// The calls that are made of an open reading, and the answers to those that are not refused, as values.
#[derive(Clone, Copy)]
pub enum Call {
    // put an entry at the end
    Append(u64),
    // take the first entry away
    Drop,
    // put an entry at a place, counted from 0
    Replace(usize, u64),
    // show the count and the sum
    Look,
}

#[derive(Clone, Copy)]
pub enum Answer<S> {
    // to an append: the new count
    Count(usize),
    // to a drop or a replace: the entry that was there
    Entry(u64),
    // to a look: the count and the sum
    Seen(usize, S),
}
