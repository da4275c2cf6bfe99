//! Which tokens begin a line, and at which level.
use crate::gaps::{Gap, Role, gap_before, role_of};
use crate::kind::ItemKind;
use crate::reading::SourceItem;
use btree::{Construct, Sort, Tag, tags_of};
use std::alloc::{AllocError, Global};

/// How many levels further in a line stands that goes on with a statement.
const FURTHER: usize = 1;

/// The same for a line that goes on with the condition of a statement, which has to differ from what comes after it.
const FURTHER_IN_CONDITION: usize = 2;

/// Where a token stands.
#[derive(Clone, Copy)]
pub(crate) struct TokenLayout {
    pub gap: Gap,
    /// The level of its line, if it begins one.
    pub level: usize,
    /// The level of a comment on a line of its own before it.
    pub comments: usize,
}

impl TokenLayout {
    fn new(gap: Gap, level: usize, comments: usize) -> Self {
        TokenLayout {
            gap,
            level,
            comments,
        }
    }
}

/// Where the end of a source stands.
pub(crate) const END: TokenLayout = TokenLayout {
    gap: Gap::Line,
    level: 0,
    comments: 0,
};

/// Where each token stands.
pub(crate) fn spots(
    alloc: Global,
    pieces: &[SourceItem<'_>],
) -> Result<Vec<TokenLayout>, AllocError> {
    let tags = tags_of(alloc, sorts(alloc, pieces)?.as_slice())?;
    let mut tokens = pieces
        .iter()
        .filter(|piece| piece.kind != ItemKind::Comment);
    let mut structure = Structure::new(alloc);
    let mut spots = Vec::new(alloc);
    for tag in &tags {
        match tag {
            Tag::Begins(construct) => structure.begin(*construct),
            Tag::Ends => structure.end(),
            Tag::Token => {
                if let Some(piece) = tokens.next() {
                    spots.push(structure.see(piece.kind)?)?;
                }
            }
        }
    }
    Ok(spots)
}

fn sorts(alloc: Global, pieces: &[SourceItem<'_>]) -> Result<Vec<Sort>, AllocError> {
    let mut sorts = Vec::new(alloc);
    for piece in pieces {
        if let Some(sort) = piece.sort {
            sorts.push(sort)?;
        }
    }
    Ok(sorts)
}

/// How a statement or a definition begins.
#[derive(Clone, Copy, PartialEq, Eq)]
enum Start {
    /// As one of several.
    Plain,
    /// The same, after the colon of a case or a default.
    Armed,
    /// As the one statement of the construct around it.
    Body,
}

// A construct that is open, its first token, and the level of its first line.
#[derive(Clone, Copy)]
struct Open {
    construct: Construct,
    first: ItemKind,
    level: usize,
    // Whether a case or a default has come.
    has_arms: bool,
}

#[derive(Drop)]
struct Structure {
    // What is open, from the outside in.
    opens: Vec<Open>,
    // What begins with the next token.
    begun: Option<Construct>,
    start: Start,
    // The level of the line on which the statement began.
    level: usize,
    // Whether it has a `?`.
    has_question: bool,
    // The token before, unless a construct has ended after it.
    latest: Option<ItemKind>,
    // The token before, and its role.
    before: Option<ItemKind>,
    role: Role,
}

impl Structure {
    fn new(alloc: Global) -> Self {
        Structure {
            opens: Vec::new(alloc),
            begun: None,
            start: Start::Plain,
            level: 0,
            has_question: false,
            latest: None,
            before: None,
            role: Role::Infix,
        }
    }

    fn begin(&mut self, construct: Construct) {
        if let Some(before) = self.latest {
            self.start = match before {
                ItemKind::OpenBrace => Start::Plain,
                _ => Start::Body,
            };
        }
        self.begun = Some(construct);
    }

    fn end(&mut self) {
        self.latest = None;
        self.start = match self.opens.pop() {
            Some(open) if open.first == ItemKind::Arm => Start::Armed,
            _ => Start::Plain,
        };
    }

    fn see(&mut self, kind: ItemKind) -> Result<TokenLayout, AllocError> {
        let spot = match self.begun {
            Some(construct) => self.see_first(construct, kind)?,
            None => self.see_further(kind),
        };
        self.begun = None;
        self.latest = Some(kind);
        self.before = Some(kind);
        Ok(spot)
    }

    // A token with which a construct begins.
    fn see_first(
        &mut self,
        construct: Construct,
        kind: ItemKind,
    ) -> Result<TokenLayout, AllocError> {
        let spot = self.first_spot(construct, kind);
        self.begin_line(kind, spot.level);
        if kind == ItemKind::Arm {
            self.see_arm();
        }
        self.opens.push(Open {
            construct,
            first: kind,
            level: spot.level,
            has_arms: false,
        })?;
        Ok(spot)
    }

    fn begin_line(&mut self, kind: ItemKind, level: usize) {
        self.level = level;
        self.has_question = false;
        self.role = role_of(kind, Role::Infix);
    }

    fn first_spot(&self, construct: Construct, kind: ItemKind) -> TokenLayout {
        let outside = self.outside();
        let inside = self.inside();
        let is_body = self.start == Start::Body;
        match kind {
            ItemKind::OpenBrace if is_body => TokenLayout::new(Gap::Blank, outside, outside),
            ItemKind::If if is_body && self.before == Some(ItemKind::Else) => {
                TokenLayout::new(Gap::Blank, outside, outside)
            }
            ItemKind::Arm => TokenLayout::new(self.arm_gap(), self.arm(), self.arm()),
            ItemKind::Word if construct == Construct::Heading => TokenLayout::new(
                self.line_gap(),
                0,
                inside,
            ),
            _ => TokenLayout::new(self.line_gap(), inside, inside),
        }
    }

    fn line_gap(&self) -> Gap {
        match self.before {
            Some(ItemKind::Semicolon | ItemKind::CloseBrace) => Gap::Paragraph,
            _ => Gap::Line,
        }
    }

    // Cases may stand side by side.
    fn arm_gap(&self) -> Gap {
        match self.start {
            Start::Armed => Gap::Soft,
            _ => self.line_gap(),
        }
    }

    // Another token.
    fn see_further(&mut self, kind: ItemKind) -> TokenLayout {
        let outside = self.outside();
        match kind {
            ItemKind::CloseBrace => TokenLayout::new(Gap::Line, outside, self.inside()),
            ItemKind::Else => TokenLayout::new(self.else_gap(), outside, outside),
            _ => self.go_on(kind),
        }
    }

    fn else_gap(&self) -> Gap {
        match self.before {
            Some(ItemKind::CloseBrace) => Gap::Blank,
            _ => Gap::Line,
        }
    }

    // A token within a statement or a definition.
    fn go_on(&mut self, kind: ItemKind) -> TokenLayout {
        let around = self.opens.last().map(|open| open.construct);
        let before = self.role;
        self.role = match (around, kind) {
            (Some(Construct::Definition), ItemKind::Sign) => Role::Prefix,
            _ => role_of(kind, before),
        };
        let gap = match kind {
            ItemKind::Colon if !self.has_question => Gap::Nothing,
            _ => gap_before(before, kind, self.role),
        };
        self.has_question = self.has_question || kind == ItemKind::Question;
        let further = match around {
            Some(Construct::If | Construct::While) => FURTHER_IN_CONDITION,
            _ => FURTHER,
        };
        let level = self.level.saturating_add(further);
        TokenLayout::new(gap, level, level)
    }

    // The level of the line on which the innermost construct begins.
    fn outside(&self) -> usize {
        match self.opens.last() {
            Some(open) => open.level,
            None => 0,
        }
    }

    // The level of a case or a default in it.
    fn arm(&self) -> usize {
        match self.opens.last() {
            Some(open) => open.level.saturating_add(1),
            None => 0,
        }
    }

    // The level of a statement in it.
    fn inside(&self) -> usize {
        match self.opens.last() {
            Some(open) if open.has_arms => self.arm().saturating_add(1),
            _ => self.arm(),
        }
    }

    // A case or a default has come.
    fn see_arm(&mut self) {
        if let Some(open) = self.opens.last_mut() {
            open.has_arms = true;
        }
    }
}
