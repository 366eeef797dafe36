//! The sections of a file.

ghost use Rattle.std.specs.Prelude.{◌≡◌, ℕ, List, ◌∷◌, [], ◌<◌, ◌≤◌, ◌+◌, length, IfOk, IfErr, codes, true, ◌||◌, bytes_eq};
ghost use Rattle.spd_lex.specs.declared.token.Token.{Token as TokenValue};
ghost use Rattle.spd_syntax.specs.declared.file.Counts.{Counts as CountsValue};
ghost use Rattle.spd_syntax.specs.declared.file.Word.{Word as WordValue};
ghost use Rattle.spd_syntax.specs.Words.{text_of};
ghost use Rattle.spd_syntax.specs.Positions.{section, dd_name, action_name, item, part, plus_sign, more_parts, tree, number, section_word, item_word, after_setting, has_all};
ghost use Rattle.spd_syntax.specs.Grammar.{AWord, IsTree, IsNumber};
ghost use Rattle.spd_syntax.specs.Files.{Key, AName, APart, AnItem, AreItems, IsBody, ASection, AreSections, after_section, AreTrees, IsSum};
ghost use Rattle.spd_syntax.specs.Reading.{Faults, Fails, Lacks, body_positions};

use crate::file::{Counts, Item, Quantity, Section, Shape, Word};
use crate::numbers::number_of;
use crate::reader::{Reader, behind};
use crate::refusal::{Refusal, Want, What};
use crate::unread::Unread;
use crate::variables::next_word;
use crate::words::{name_passes, says};
use spd_lex::{Kind, Token};
use sqlite_items::Items;

/// What a word is where a section begins.
#[derive(Clone, Copy, PartialEq, Eq, Debug)]
pub enum SectionWord {
    Dd,
    Action,
    Reward,
    Setting(Quantity),
    /// A word of the SPUDD format that is left out.
    LeftOut,
    Other,
}

/// What a word is where an item of an action begins.
#[derive(Clone, Copy, PartialEq, Eq, Debug)]
pub enum ItemWord {
    EndAction,
    Cost,
    /// A word of the SPUDD format that is left out.
    LeftOut,
    Other,
}

#[tactic(auto, unfolding(crate::specs::Positions::section_word))]
fn section_word(text: &[u8]) -> SectionWord
    ensures { result ≡ section_word text.now }
{
    if says(text, b"dd") {
        SectionWord::Dd
    } else if says(text, b"action") {
        SectionWord::Action
    } else if says(text, b"reward") {
        SectionWord::Reward
    } else if says(text, b"discount") {
        SectionWord::Setting(Quantity::Discount)
    } else if says(text, b"tolerance") {
        SectionWord::Setting(Quantity::Tolerance)
    } else if says(text, b"horizon") {
        SectionWord::Setting(Quantity::Horizon)
    } else if says(text, b"init") || says(text, b"unnormalized") {
        SectionWord::LeftOut
    } else {
        SectionWord::Other
    }
}

#[tactic(auto, unfolding(crate::specs::Positions::item_word))]
fn item_word(text: &[u8]) -> ItemWord
    ensures { result ≡ item_word text.now }
{
    if says(text, b"endaction") {
        ItemWord::EndAction
    } else if says(text, b"cost") {
        ItemWord::Cost
    } else if says(text, b"observe") {
        ItemWord::LeftOut
    } else {
        ItemWord::Other
    }
}

/// An operator of the SPUDD format that is left out.
fn is_left_out_operator(text: &[u8]) -> bool
    ensures { result ≡ (bytes_eq text.now (codes "*") || (bytes_eq text.now (codes "-") || bytes_eq text.now (codes "max"))) }
{
    says(text, b"*") || says(text, b"-") || says(text, b"max")
}

fn has_all(counts: Counts) -> bool
    ensures { result ≡ has_all counts }
{
    counts.actions > 0 && counts.reward && counts.discount && counts.stop
}

fn after_setting(quantity: Quantity, counts: Counts) -> Counts
    ensures { result ≡ after_setting quantity counts }
{
    match quantity {
        Quantity::Discount => Counts {
            discount: true,
            ..counts
        },
        _ => Counts {
            stop: true,
            ..counts
        },
    }
}

/// Behind a section.
fn after_section(counts: Counts, section: &Section) -> Counts
    requires dds { counts.dds ≤ 4096 }
    requires actions { counts.actions ≤ 64 }
    ensures { result ≡ after_section counts section.now }
{
    match section {
        Section::Dd { .. } => Counts {
            dds: counts.dds + 1,
            ..counts
        },
        Section::Action { .. } => Counts {
            actions: counts.actions + 1,
            ..counts
        },
        Section::Reward { .. } => Counts {
            reward: true,
            ..counts
        },
        Section::Setting { quantity, .. } => after_setting(*quantity, counts),
    }
}

impl Reader<'_> {
    /// A decision diagram behind `dd`.
    fn dd<'t>(&self, counts: Counts, tokens: &'t [Token]) -> Result<(Section, &'t [Token]), Unread>
        ensures ok { IfOk result (λ x. (w : WordValue) → IsBody self.now.file.now counts SectionWord.Dd w x.0 tokens.now x.1.now) }
        ensures err { IfErr result (Fails self.now.file.now (body_positions counts SectionWord.Dd) tokens.now) }
        ensures shorter { IfOk result (λ x. length x.1.now < length tokens.now) }
    {
        let (name, rest) = self.declared(What::Dds, 4096, counts.dds, tokens)?;
        let (tree, rest) = self.tree(Quantity::Diagram, 0, rest)?;
        let rest = self.keyword(b"enddd", Want::EndDd, rest)?;
        Ok((Section::Dd { name, tree }, rest))
    }

    /// The word `+` of a sum.
    fn plus<'t>(&self, tokens: &'t [Token]) -> Result<&'t [Token], Refusal>
        ensures ok { IfOk result (λ rest. (w : WordValue) × Key self.now.file.now (codes "+") w tokens.now rest.now) }
        ensures err { IfErr result (Faults self.now.file.now (plus_sign ∷ []) tokens.now) }
        ensures shorter { IfOk result (λ rest. length rest.now < length tokens.now) }
    {
        let (word, rest) = self.word(Want::Plus, tokens)?;
        let at = word.from as usize;
        let text = self.text(word);
        if says(text, b"+") {
            return Ok(rest);
        }
        if is_left_out_operator(text) {
            return Err(Refusal::LeftOut { at });
        }
        Err(Refusal::Expected {
            at,
            want: Want::Plus,
        })
    }

    /// The trees of a sum behind its `+`, and the `]` behind them.
    fn trees<'t>(&self, tokens: &'t [Token]) -> Result<(Items<Shape>, &'t [Token]), Unread>
        ensures ok { IfOk result (λ x. AreTrees self.now.file.now x.0 tokens.now x.1.now) }
        ensures err { IfErr result (Fails self.now.file.now (tree Quantity.Reward 0 ∷ more_parts ∷ []) tokens.now) }
        ensures shorter { IfOk result (λ x. length x.1.now < length tokens.now) }
    {
        let (first, mut rest) = self.tree(Quantity::Reward, 0, tokens)?;
        let mut trees = Items::new(self.alloc);
        trees.push(first)?;
        while let Some(inside) = behind(Kind::Open, rest) {
            let (tree, after) = self.inside(Quantity::Reward, 0, inside)?;
            trees.push(tree)?;
            rest = after;
        }
        let rest = self.bracket(Kind::CloseSum, Want::Close, rest)?;
        Ok((trees, rest))
    }

    /// A sum behind its `[`.
    fn sum<'t>(&self, tokens: &'t [Token]) -> Result<(Items<Shape>, &'t [Token]), Unread>
        ensures ok { IfOk result (λ x. IsSum self.now.file.now x.0 tokens.now x.1.now) }
        ensures err { IfErr result (Fails self.now.file.now (plus_sign ∷ []) tokens.now) }
        ensures shorter { IfOk result (λ x. length x.1.now < length tokens.now) }
    {
        let rest = self.plus(tokens)?;
        self.trees(rest)
    }

    /// The parts of a reward or of a cost: one tree, or a sum of some.
    fn parts<'t>(&self, tokens: &'t [Token]) -> Result<(Items<Shape>, &'t [Token]), Unread>
        ensures ok { IfOk result (λ x. APart self.now.file.now x.0 tokens.now x.1.now) }
        ensures err { IfErr result (Fails self.now.file.now (part ∷ []) tokens.now) }
        ensures shorter { IfOk result (λ x. length x.1.now < length tokens.now) }
    {
        if let Some(inside) = behind(Kind::OpenSum, tokens) {
            return self.sum(inside);
        }
        let (tree, rest) = self.tree(Quantity::Reward, 0, tokens)?;
        let mut trees = Items::new(self.alloc);
        trees.push(tree)?;
        Ok((trees, rest))
    }

    /// An item of an action behind its first word, which isn't `endaction`.
    fn item<'t>(&self, word: Word, tokens: &'t [Token]) -> Result<(Item, &'t [Token]), Unread>
        requires { item_word (text_of self.now.file.now word) ≡ ItemWord.EndAction → ⊥ }
        ensures ok { IfOk result (λ x. (a : List TokenValue) → AWord word a tokens.now → AnItem self.now.file.now x.0 a x.1.now) }
        ensures err { IfErr result (λ e. (a : List TokenValue) (c : CountsValue) → AWord word a tokens.now → Fails self.now.file.now (item c ∷ []) a e) }
        ensures shorter { IfOk result (λ x. length x.1.now ≤ length tokens.now) }
    {
        let at = word.from as usize;
        let text = self.text(word);
        match item_word(text) {
            ItemWord::Cost => {
                let (parts, rest) = self.parts(tokens)?;
                Ok((Item::Cost { word, parts }, rest))
            }
            ItemWord::LeftOut => Err(Unread::Refused(Refusal::LeftOut { at })),
            _ => {
                name_passes(Want::Name, at, text)?;
                let (tree, rest) = self.tree(Quantity::Table, 0, tokens)?;
                Ok((Item::Table { name: word, tree }, rest))
            }
        }
    }
}

impl Reader<'_> {
    /// The items of an action, up to `endaction`.
    fn items<'t>(&self, tokens: &'t [Token]) -> Result<(Items<Item>, Word, &'t [Token]), Unread>
        ensures ok { IfOk result (λ x. AreItems self.now.file.now x.0 x.1 tokens.now x.2.now) }
        ensures err { IfErr result (λ e. (c : CountsValue) → Fails self.now.file.now (item c ∷ []) tokens.now e) }
        ensures shorter { IfOk result (λ x. length x.2.now < length tokens.now) }
    {
        let mut rest = tokens;
        let mut items = Items::new(self.alloc);
        'items: loop {
            let (word, after) = self.word(Want::Name, rest)?;
            if let ItemWord::EndAction = item_word(self.text(word)) {
                return Ok((items, word, after));
            }
            let (item, next) = self.item(word, after)?;
            items.push(item)?;
            rest = next;
        }
    }

    /// An action behind `action`.
    fn action<'t>(
        &self,
        counts: Counts,
        tokens: &'t [Token],
    ) -> Result<(Section, &'t [Token]), Unread>
        ensures ok { IfOk result (λ x. (w : WordValue) → IsBody self.now.file.now counts SectionWord.Action w x.0 tokens.now x.1.now) }
        ensures err { IfErr result (Fails self.now.file.now (body_positions counts SectionWord.Action) tokens.now) }
        ensures shorter { IfOk result (λ x. length x.1.now < length tokens.now) }
    {
        let (name, rest) = self.declared(What::Actions, 64, counts.actions, tokens)?;
        let (items, end, rest) = self.items(rest)?;
        Ok((Section::Action { name, items, end }, rest))
    }

    /// A setting behind its word.
    fn setting<'t>(
        &self,
        word: Word,
        quantity: Quantity,
        tokens: &'t [Token],
    ) -> Result<(Section, &'t [Token]), Refusal>
        ensures ok { IfOk result (λ x. (c : CountsValue) → IsBody self.now.file.now c (SectionWord.Setting quantity) word x.0 tokens.now x.1.now) }
        ensures err { IfErr result (Faults self.now.file.now (number quantity ∷ []) tokens.now) }
        ensures shorter { IfOk result (λ x. length x.1.now < length tokens.now) }
    {
        let (number, rest) = self.word(Want::Number, tokens)?;
        let units = number_of(quantity, number.from as usize, self.text(number))?;
        Ok((
            Section::Setting {
                word,
                quantity,
                units,
            },
            rest,
        ))
    }

    /// The fault where no word stands, and a section is to begin.
    fn no_section(&self, tokens: &[Token]) -> Refusal
        requires some { 0 < length tokens.now }
        requires word { Lacks Kind.Word tokens.now }
        ensures { (c : CountsValue) → Faults self.now.file.now (section c ∷ []) tokens.now result }
    {
        let fault = self.expected(Want::Section, tokens);
        let Some(inside) = behind(Kind::Open, tokens) else {
            return fault;
        };
        let Some((word, _)) = next_word(inside) else {
            return fault;
        };
        if says(self.text(word), b"observations") {
            return Refusal::LeftOut {
                at: word.from as usize,
            };
        }
        fault
    }

    /// The first word of a section.
    fn section_begins<'t>(&self, tokens: &'t [Token]) -> Result<(Word, &'t [Token]), Refusal>
        requires { 0 < length tokens.now }
        ensures ok { IfOk result (λ x. AWord x.0 tokens.now x.1.now) }
        ensures err { IfErr result (λ f. (c : CountsValue) → Faults self.now.file.now (section c ∷ []) tokens.now f) }
    {
        match next_word(tokens) {
            Some(x) => Ok(x),
            None => Err(self.no_section(tokens)),
        }
    }

    /// A section behind its first word.
    fn body<'t>(
        &self,
        counts: Counts,
        word: Word,
        kind: SectionWord,
        tokens: &'t [Token],
    ) -> Result<(Section, &'t [Token]), Unread>
        requires left_out { kind ≡ SectionWord.LeftOut → ⊥ }
        requires other { kind ≡ SectionWord.Other → ⊥ }
        ensures ok { IfOk result (λ x. IsBody self.now.file.now counts kind word x.0 tokens.now x.1.now) }
        ensures err { IfErr result (Fails self.now.file.now (body_positions counts kind) tokens.now) }
        ensures shorter { IfOk result (λ x. length x.1.now < length tokens.now) }
    {
        match kind {
            SectionWord::Dd => self.dd(counts, tokens),
            SectionWord::Action => self.action(counts, tokens),
            SectionWord::Setting(quantity) => Ok(self.setting(word, quantity, tokens)?),
            _ => {
                let (parts, rest) = self.parts(tokens)?;
                Ok((Section::Reward { word, parts }, rest))
            }
        }
    }

    /// A section.
    fn section<'t>(
        &self,
        counts: Counts,
        tokens: &'t [Token],
    ) -> Result<(Section, &'t [Token]), Unread>
        requires { 0 < length tokens.now }
        ensures ok { IfOk result (λ x. ASection self.now.file.now counts x.0 tokens.now x.1.now) }
        ensures err { IfErr result (Fails self.now.file.now (section counts ∷ []) tokens.now) }
        ensures shorter { IfOk result (λ x. length x.1.now < length tokens.now) }
    {
        let (word, rest) = self.section_begins(tokens)?;
        let at = word.from as usize;
        match section_word(self.text(word)) {
            SectionWord::LeftOut => Err(Unread::Refused(Refusal::LeftOut { at })),
            SectionWord::Other => Err(Unread::Refused(Refusal::Expected {
                at,
                want: Want::Section,
            })),
            kind => self.body(counts, word, kind, rest),
        }
    }

    /// The sections of a file, up to its end.
    pub(crate) fn sections(
        &self,
        counts: Counts,
        tokens: &[Token],
    ) -> Result<Items<Section>, Unread>
        requires dds { counts.dds ≤ 4096 }
        requires actions { counts.actions ≤ 64 }
        ensures ok { IfOk result (λ x. (k : CountsValue) × AreSections self.now.file.now counts x k tokens.now [] × (has_all k ≡ true)) }
        ensures err { IfErr result (Fails self.now.file.now (section counts ∷ []) tokens.now) }
    {
        let mut rest = tokens;
        let mut seen = counts;
        let mut sections = Items::new(self.alloc);
        while !rest.is_empty() {
            let (section, after) = self.section(seen, rest)?;
            seen = after_section(seen, &section);
            sections.push(section)?;
            rest = after;
        }
        if !has_all(seen) {
            return Err(Unread::Refused(self.expected(Want::Section, rest)));
        }
        Ok(sections)
    }
}
