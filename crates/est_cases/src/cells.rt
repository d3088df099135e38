//! The cells of a case.

/// The columns of a table of cases.
#[derive(Clone, Copy)]
pub enum Column {
    Words,
    Specification,
    Old,
    New,
    Trace,
    Explanation,
    Input,
    Tokens,
    Shelf,
    Sink,
    Gives,
    Then,
    Replayed,
    Expectation,
}

impl Column {
    /// The column of this name.
    pub fn named(name: &str) -> Option<Column> {
        match name {
            "words" => Some(Column::Words),
            "specification" => Some(Column::Specification),
            "old" => Some(Column::Old),
            "new" => Some(Column::New),
            "trace" => Some(Column::Trace),
            "explanation" => Some(Column::Explanation),
            "input" => Some(Column::Input),
            "tokens" => Some(Column::Tokens),
            "shelf" => Some(Column::Shelf),
            "sink" => Some(Column::Sink),
            "gives" => Some(Column::Gives),
            "then" => Some(Column::Then),
            "replayed" => Some(Column::Replayed),
            "expectation" => Some(Column::Expectation),
            _ => None,
        }
    }
}

/// The cells of a case, as they are written. A cell that is not given is none.
#[derive(Clone, Copy)]
pub struct Cells<'t> {
    pub name: &'t str,
    pub words: Option<&'t str>,
    pub specification: Option<&'t str>,
    pub old: Option<&'t str>,
    pub new: Option<&'t str>,
    pub trace: Option<&'t str>,
    pub explanation: Option<&'t str>,
    pub input: Option<&'t str>,
    pub tokens: Option<&'t str>,
    pub shelf: Option<&'t str>,
    pub sink: Option<&'t str>,
    pub gives: Option<&'t str>,
    pub then: Option<&'t str>,
    pub replayed: Option<&'t str>,
    pub expectation: Option<&'t str>,
}

impl<'t> Cells<'t> {
    /// Nothing is given.
    pub fn new() -> Cells<'t> {
        Cells {
            name: "",
            words: None,
            specification: None,
            old: None,
            new: None,
            trace: None,
            explanation: None,
            input: None,
            tokens: None,
            shelf: None,
            sink: None,
            gives: None,
            then: None,
            replayed: None,
            expectation: None,
        }
    }

    /// Gives the cell of a column.
    pub fn set(&mut self, column: Column, cell: &'t str) {
        let cell = Some(cell);
        match column {
            Column::Words => self.words = cell,
            Column::Specification => self.specification = cell,
            Column::Old => self.old = cell,
            Column::New => self.new = cell,
            Column::Trace => self.trace = cell,
            Column::Explanation => self.explanation = cell,
            Column::Input => self.input = cell,
            Column::Tokens => self.tokens = cell,
            Column::Shelf => self.shelf = cell,
            Column::Sink => self.sink = cell,
            Column::Gives => self.gives = cell,
            Column::Then => self.then = cell,
            Column::Replayed => self.replayed = cell,
            Column::Expectation => self.expectation = cell,
        }
    }
}
