//! Reads the table `[rules]` and looks up its skills. A call that may return a fault may also
//! return `Memory`. `at` is the path of a table. `all` has all tables as read, in their ranges.
//! See docs/FORMATS.md, "The world file".
ghost use Rattle.std.specs.Prelude.{IfOk, length};
ghost use Rattle.toml.specs.View.{table_view};
ghost use Rattle.atl_tables.specs.Drafts.{ArePrices, ArePeasantRules, AreMenRules, AreRulesDraft, IsWorldDraft};
ghost use Rattle.atl_tables.specs.Faults.{first_fault};
ghost use Rattle.atl_tables.specs.Results.{Gives};
ghost use Rattle.atl_tables.specs.KeyByKey.{conditions_of, value_of};
ghost use Rattle.atl_world.specs.Worlds.{AreRules};
ghost use Rattle.atl_tables.specs.RulesTable.{prices_at, peasant_rules_at, men_rules_at, skill_names_at, rules_at, rules_conditions, rules_in, rules_known, rules_of};

use crate::elements::FromTable;
use crate::fault::WorldFault;
use crate::keys;
use crate::titles::known_number_or_none;
use crate::world_draft::WorldDraft;
use atl_world::limits::{
    MOST_AMOUNT, MOST_FRACTION, MOST_GROWTH, MOST_PER_HEAD, MOST_PRICE, MOST_WEIGHT,
};
use atl_world::{Rules, Text, let_go};
use std::alloc::Global;
use toml::Table;

/// The rules on maintenance, tax per man, and the price of a recruit.
#[derive(Drop)]
pub struct Prices {
    /// Money that each man costs a month, from 1 to `MOST_PER_HEAD`.
    pub maintenance: u32,
    /// The most money that a man on guard takes as tax in a month, at most `MOST_PER_HEAD`.
    pub tax_per_man: u32,
    /// Money that a recruit costs, from 1 to `MOST_PRICE`.
    pub recruit_price: u32,
}

/// The rules on recruits, births and income of peasants in a month.
#[derive(Drop)]
pub struct PeasantRules {
    /// The number of peasants of whom one can be recruited in a month, from 1 to `MOST_FRACTION`.
    pub recruit_fraction: u32,
    /// The most births in a month, in percent of the peasants, at most `MOST_GROWTH`.
    pub growth: u32,
    /// Money that each peasant earns its region in a month, at most `MOST_PER_HEAD`.
    pub income: u32,
}

/// The rules on the money of a new faction, and on what men weigh and carry.
#[derive(Drop)]
pub struct MenRules {
    /// Money of the unit with which a faction joins, at most `MOST_AMOUNT`.
    pub start_money: u32,
    /// The weight of a man, at most `MOST_WEIGHT`.
    pub man_weight: u32,
    /// The weight of goods that a man carries, at most `MOST_WEIGHT`.
    pub man_carry: u32,
}

/// The skills of observation, stealth and sailing, by name, `None` if the file names none.
pub struct SkillNames {
    pub observation: Option<Text>,
    pub stealth: Option<Text>,
    pub sailing: Option<Text>,
}

impl Drop for SkillNames {
    fn drop(self) {
        let_go!(self: SkillNames { observation, stealth, sailing });
    }
}

/// The table `[rules]` as read, with skills by name.
#[derive(Drop)]
pub struct RulesDraft {
    pub prices: Prices,
    pub peasants: PeasantRules,
    pub men: MenRules,
    pub skills: SkillNames,
}

impl FromTable for Prices {
    ghost conditions = { conditions_of prices_at };

    ghost record_of = { value_of prices_at };

    ghost is_sound = { ArePrices };

    #[tactic(auto, unfolding(crate::specs::RulesTable::prices_at, crate::specs::Keys::number_at))]
    fn read(alloc: Global, at: &str, table: &Table) -> Result<Prices, WorldFault> {
        let maintenance = keys::number(alloc, 1, MOST_PER_HEAD, "maintenance", at, table)?;
        let tax_per_man = keys::number(alloc, 0, MOST_PER_HEAD, "tax_per_man", at, table)?;
        let recruit_price = keys::number(alloc, 1, MOST_PRICE, "recruit_price", at, table)?;
        Ok(Prices {
            maintenance,
            tax_per_man,
            recruit_price,
        })
    }
}

impl FromTable for PeasantRules {
    ghost conditions = { conditions_of peasant_rules_at };

    ghost record_of = { value_of peasant_rules_at };

    ghost is_sound = { ArePeasantRules };

    #[tactic(auto, unfolding(crate::specs::RulesTable::peasant_rules_at, crate::specs::Keys::number_at))]
    fn read(alloc: Global, at: &str, table: &Table) -> Result<PeasantRules, WorldFault> {
        let recruit_fraction = keys::number(
            alloc,
            1,
            MOST_FRACTION,
            "recruit_fraction",
            at,
            table,
        )?;
        let growth = keys::number(alloc, 0, MOST_GROWTH, "growth", at, table)?;
        let income = keys::number(alloc, 0, MOST_PER_HEAD, "income", at, table)?;
        Ok(PeasantRules {
            recruit_fraction,
            growth,
            income,
        })
    }
}

impl FromTable for MenRules {
    ghost conditions = { conditions_of men_rules_at };

    ghost record_of = { value_of men_rules_at };

    ghost is_sound = { AreMenRules };

    #[tactic(auto, unfolding(crate::specs::RulesTable::men_rules_at, crate::specs::Keys::number_at))]
    fn read(alloc: Global, at: &str, table: &Table) -> Result<MenRules, WorldFault> {
        let start_money = keys::number(alloc, 0, MOST_AMOUNT, "start_money", at, table)?;
        let man_weight = keys::number(alloc, 0, MOST_WEIGHT, "man_weight", at, table)?;
        let man_carry = keys::number(alloc, 0, MOST_WEIGHT, "man_carry", at, table)?;
        Ok(MenRules {
            start_money,
            man_weight,
            man_carry,
        })
    }
}

#[tactic(auto, unfolding(crate::specs::RulesTable::skill_names_at, crate::specs::Keys::optional_text_at))]
fn skill_names(alloc: Global, at: &str, table: &Table) -> Result<SkillNames, WorldFault>
    ensures { Gives (λ s. s) result
        (first_fault (conditions_of skill_names_at at.now (table_view table.now)))
        (value_of skill_names_at at.now (table_view table.now)) }
{
    let observation = keys::optional_text(alloc, "observation", at, table)?;
    let stealth = keys::optional_text(alloc, "stealth", at, table)?;
    let sailing = keys::optional_text(alloc, "sailing", at, table)?;
    Ok(SkillNames {
        observation,
        stealth,
        sailing,
    })
}

impl FromTable for RulesDraft {
    ghost conditions = { conditions_of rules_at };

    ghost record_of = { value_of rules_at };

    ghost is_sound = { AreRulesDraft };

    #[tactic(auto, unfolding(crate::specs::RulesTable::rules_at))]
    fn read(alloc: Global, at: &str, table: &Table) -> Result<RulesDraft, WorldFault> {
        let prices = Prices::read(alloc, at, table)?;
        let peasants = PeasantRules::read(alloc, at, table)?;
        let men = MenRules::read(alloc, at, table)?;
        let skills = skill_names(alloc, at, table)?;
        Ok(RulesDraft {
            prices,
            peasants,
            men,
            skills,
        })
    }
}

/// The table `[rules]` of the document as read, else the fault Missing or WrongType of the table,
/// or the first fault of its keys.
#[tactic(auto, unfolding(crate::specs::RulesTable::rules_conditions, crate::specs::RulesTable::rules_in))]
pub(crate) fn rules(alloc: Global, document: &Table) -> Result<RulesDraft, WorldFault>
    ensures value { Gives (λ r. r) result (first_fault (rules_conditions (table_view document.now)))
        (rules_in (table_view document.now)) }
    ensures sound { IfOk result AreRulesDraft }
{
    let table = keys::table(alloc, "rules", document)?;
    RulesDraft::read(alloc, "rules", table)
}

/// The rules of the world, with skills by number, `None` for a missing key; else the fault
/// UnknownName at the first key whose skill isn't there.
#[tactic(auto, unfolding(crate::specs::RulesTable::rules_known, crate::specs::RulesTable::rules_of))]
pub(crate) fn resolve_rules(alloc: Global, all: &WorldDraft) -> Result<Rules, WorldFault>
    requires { IsWorldDraft all.now }
    ensures value { Gives (λ r. r) result (first_fault (rules_known all.now)) (rules_of all.now) }
    ensures sound { IfOk result (AreRules (length all.now.skills)) }
{
    let RulesDraft {
        prices,
        peasants,
        men,
        skills,
    } = &all.rules;
    let known = all.skills.as_slice();
    let observation = known_number_or_none(
        alloc,
        known,
        "observation",
        "rules",
        &skills.observation,
    )?;
    let stealth = known_number_or_none(alloc, known, "stealth", "rules", &skills.stealth)?;
    let sailing = known_number_or_none(alloc, known, "sailing", "rules", &skills.sailing)?;
    Ok(Rules {
        maintenance: prices.maintenance,
        tax_per_man: prices.tax_per_man,
        recruit_price: prices.recruit_price,
        recruit_fraction: peasants.recruit_fraction,
        growth: peasants.growth,
        income: peasants.income,
        start_money: men.start_money,
        man_weight: men.man_weight,
        man_carry: men.man_carry,
        observation,
        stealth,
        sailing,
    })
}
