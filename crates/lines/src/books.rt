// The books of the cases, as book files in numbers, and lines to read by them.
use std::alloc::{AllocError, Global};

// A book, with lines that its rules derive and others. Of a file, each record stands apart: for a rule the number of right symbols, the left code and the right
// codes; at the end 7 and the number of rules.
pub(crate) struct Known {
    pub name: &'static str,
    pub file: &'static str,
    pub derived: &'static [&'static str],
    pub others: &'static [&'static str],
}

// The numbers of a text; what is no byte is 0.
pub(crate) fn bytes_of(heap: Global, text: &str) -> Result<Vec<u8>, AllocError> {
    let mut bytes = Vec::new(heap);
    for word in text.split_whitespace() {
        bytes.push(word.parse::<u8>().unwrap_or(0))?;
    }
    Ok(bytes)
}

pub(crate) const LEFT_LISTS: &str =
    "2 41 42 2  2 41 43 3  2 42 42 44  1 42 44  2 43 43 45  1 43 45  1 44 1  1 45 1  7 8";

pub(crate) const WAITING: &str =
    "3 41 42 43 3  3 41 44 45 4  1 42 1  1 44 1  2 43 43 2  1 43 46  2 45 45 2  1 45 47  2 46 5 6  2 47 5 7  7 10";

pub(crate) const ONE_LIST: &str = "2 41 41 1  1 41 1  7 2";

// Stays beside the same books in `cases`, which only builds them: the programs share no crate but the engine's own.
const BOOKS: &[Known] = &[
    Known {
        name: "empty book",
        file: "7 0",
        derived: &[],
        others: &[],
    },
    Known {
        name: "two left-recursive lists",
        file: LEFT_LISTS,
        derived: &["1 2", "1 1 2", "1 1 1 1 3"],
        others: &["2", "1 1", "1 1 2 3", "1 2 1", "1 4"],
    },
    Known {
        name: "two right-recursive lists",
        file: "2 41 42 1  2 41 43 2  2 42 44 42  1 42 44  2 43 45 43  1 43 45  1 44 3  1 45 3  7 8",
        derived: &["3 1", "3 3 1", "3 3 3 2"],
        others: &["3 3", "1", "3 3 1 2", "3 3 1 3"],
    },
    Known {
        name: "doubled",
        file: "2 41 41 41  1 41 1  7 2",
        derived: &[],
        others: &[],
    },
    Known {
        name: "itself",
        file: "1 41 41  1 41 1  7 2",
        derived: &[],
        others: &[],
    },
    Known {
        name: "apart",
        file: "1 41 1  1 42 2  7 2",
        derived: &[],
        others: &[],
    },
    Known {
        name: "waiting over a list",
        file: WAITING,
        derived: &["1 5 6 3", "1 5 6 2 3", "1 5 7 2 2 4"],
        others: &["1 5 6 2 4", "1 5 7 3", "1 2 3", "1 5 6 2"],
    },
    Known {
        name: "settled too late",
        file: "4 41 1 42 44 2  4 41 3 42 45 2  2 41 42 46  2 41 43 47  1 42 4  1 43 4  1 44 3  1 45 3  2 46 5 6  2 47 5 7  7 10",
        derived: &[],
        others: &[],
    },
    Known {
        name: "nested and counted",
        file: "2 41 42 43  2 41 44 45  1 42 4  1 44 4  3 43 1 43 2  2 43 1 2  2 45 1 45  2 45 1 43  7 8",
        derived: &["4 1 2", "4 1 1 2 2", "4 1 1 1 2"],
        others: &["4 1 2 2", "4 1 1", "1 2", "4 1 1 2 2 2"],
    },
    Known {
        name: "pairs, even or odd",
        file: "1 41 42  2 41 43 44  3 42 2 2 42  2 42 2 2  3 43 2 2 43  2 43 2 2  1 44 2  7 7",
        derived: &["2 2", "2 2 2", "2 2 2 2", "2 2 2 2 2"],
        others: &["2", "2 2 1", "1 2"],
    },
    Known {
        name: "one for one, or two for one",
        file: "2 41 42 3  2 41 43 4  2 42 1 44  3 42 1 42 44  1 44 2  3 43 1 45 45  4 43 1 43 45 45  1 45 2  7 8",
        derived: &["1 2 3", "1 1 2 2 3", "1 1 2 2 2 2 4"],
        others: &["1 2 4", "1 1 2 2 4", "1 2 2 3", "1 1 2 3"],
    },
    Known {
        name: "one for one, or two for one, and more behind",
        file: "2 41 42 45  2 41 44 47  3 42 1 42 43  2 42 1 43  1 43 2  4 44 1 44 46 46  3 44 1 46 46  1 46 2  2 45 45 4  2 45 48 4  1 47 48  3 48 3 48 4  2 48 3 4  7 13",
        derived: &["1 2 3 4 4", "1 2 2 3 4", "1 1 2 2 3 3 4 4 4 4"],
        others: &["1 2 3 4", "1 2 2 3 4 4", "1 2 2 2 3 4"],
    },
    Known {
        name: "a conflict under each policy",
        file: "4 41 3 42 44 5  4 41 4 42 45 5  3 41 42 6 7  3 41 43 6 8  1 42 1  1 43 1  1 44 4  1 45 4  7 8",
        derived: &[],
        others: &[],
    },
    Known {
        name: "a plain list",
        file: "5 41 1 42 2 43 3  3 42 4 5 42  1 42 4  1 43 6  1 43 7  7 5",
        derived: &["1 4 2 6 3", "1 4 5 4 5 4 2 7 3"],
        others: &["1 4 5 2 6 3", "1 4 2 3", "1 4 2 6"],
    },
    Known {
        name: "a list settled by its end",
        file: "4 41 1 42 43 2  4 41 1 44 45 2  3 42 3 4 42  1 42 3  2 43 5 6  3 44 3 4 44  1 44 3  2 45 5 7  7 8",
        derived: &["1 3 5 6 2", "1 3 4 3 5 7 2"],
        others: &["1 3 4 5 6 2", "1 3 5 6", "1 3 5 8 2"],
    },
];

pub(crate) fn all() -> &'static [Known] {
    BOOKS
}
