// The rows, order by order.
use crate::fault::Fault;
use crate::files::make_file;
use crate::lines::{block_at, expect_silent, first_word, is_silent, words_of};
use crate::run::{OUTPUTS, show_output, show_run, value_of};
use crate::table::{Table, is_of_text, parted, text_of_row};
use p4x_io::{HostSink, print_all};
use std::fs;
use std::rt::Files;

/// The file that a table makes for each of its rows.
const ROW: &str = "row";

/// What is kept from order to order.
#[derive(Drop)]
pub struct Rows<'a, 'l, 'r, R> {
    rt: &'r R,
    /// All lines.
    lines: &'l [&'a str],
    /// What is printed next.
    out: String,
    /// Outputs that weren't there before the runs of the row.
    made: Vec<&'a str>,
    /// A file that outputs are compared with; none where it is empty.
    known: &'a str,
    table: Table<'a>,
}

/// Notes the outputs that the words name and that aren't there yet.
fn note_outputs<'a, R: Files>(
    rt: &R,
    made: &mut Vec<&'a str>,
    words: &[&'a str],
) -> Result<(), Fault> {
    for option in OUTPUTS {
        if let Some(name) = value_of(words, option) {
            if !fs::exists(rt, name)? {
                made.push(name)?;
            }
        }
    }
    Ok(())
}

impl<'a, 'l, 'r, R: Files + Print + AllocGlobal> Rows<'a, 'l, 'r, R> {
    /// No row was begun yet.
    pub fn new(rt: &'r R, lines: &'l [&'a str]) -> Self {
        let alloc = rt.alloc();
        Rows {
            rt,
            lines,
            out: String::new(alloc),
            made: Vec::new(alloc),
            known: "",
            table: Table::new(""),
        }
    }

    /// Ends a row: the outputs that its runs made go, and what it shows is printed.
    pub fn end(&mut self) -> Result<(), Fault> {
        for name in &self.made {
            if fs::exists(self.rt, *name)? {
                self.rt.remove_file(name)?;
            }
        }
        self.made.clear();
        print_all(&mut HostSink::new(self.rt), self.out.as_bytes())?;
        self.out.clear();
        Ok(())
    }

    /// Runs words, and shows how it ended.
    fn run(&mut self, told: &'a str) -> Result<Vec<&'a str>, Fault> {
        let words = words_of(self.rt.alloc(), told)?;
        note_outputs(self.rt, &mut self.made, &words)?;
        show_run(self.rt, &mut self.out, &words)?;
        Ok(words)
    }

    /// Runs words, and shows how it ended and the outputs.
    fn run_row(&mut self, told: &'a str) -> Result<(), Fault> {
        let words = self.run(told)?;
        for option in OUTPUTS {
            if let Some(name) = value_of(&words, option) {
                show_output(self.rt, &mut self.out, self.known, option, name)?;
            }
        }
        Ok(())
    }

    /// Runs the words of the table over a text, and shows how it ended.
    fn run_cell(&mut self, told: &str) -> Result<(), Fault> {
        let (name, cell) = parted(told)?;
        let text = text_of_row(self.rt, self.lines, self.table, cell)?;
        fs::write(self.rt, ROW, text)?;
        self.out.push_str("- ")?;
        self.out.push_str(name)?;
        self.out.push_str(": ")?;
        let _words = self.run(self.table.told)?;
        self.end()
    }

    /// Runs the rows of a table that stand in the block of an order, which may have lines of a text in front of them.
    fn run_cells(&mut self, order: &str, block: &[&str]) -> Result<(), Fault> {
        let has_text = order == "before" || order == "behind";
        for line in block {
            if let Some(told) = line.strip_prefix("- ") {
                self.run_cell(told)?;
            } else if !is_silent(line) && !(has_text && is_of_text(line)) {
                return Err(Fault::new("this is no line of a table"));
            }
        }
        Ok(())
    }

    /// Begins a row.
    fn begin(&mut self, name: &str) -> Result<(), Fault> {
        self.end()?;
        self.known = "";
        self.out.push_str("== ")?;
        self.out.push_str(name)?;
        self.out.push('\n')?;
        Ok(())
    }

    /// Does what an order says that has no block.
    fn follow_alone(&mut self, order: &str, told: &'a str) -> Result<(), Fault> {
        match order {
            "==" => self.begin(told),
            "run" => self.run_row(told),
            _ => {
                self.known = told;
                Ok(())
            }
        }
    }

    /// Does what the order at a place among the lines says, with the lines of its block.
    pub fn follow(&mut self, at: usize) -> Result<(), Fault> {
        let lines = self.lines;
        let Some(line) = lines.get(at) else {
            return Ok(());
        };
        let from = at.saturating_add(1);
        let block = block_at(lines, from);
        let (order, told) = first_word(line);
        match order {
            "==" | "run" | "known" => {
                expect_silent(block)?;
                return self.follow_alone(order, told);
            }
            "each" => self.table = Table::new(told),
            "before" => self.table.before = Some(from),
            "behind" => self.table.behind = Some(from),
            "from" if !told.contains(' ') => self.table.base = told,
            _ => return make_file(self.rt, order, told, block),
        }
        self.run_cells(order, block)
    }
}
