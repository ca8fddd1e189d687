//! Scripts as tools take them. What words and files ask for: a script that is to be run over a market, the script of a load, or the report
//! of a market; or the status with which they are refused, the first failure in the order in which files are read. The shape of a script of
//! blocks: each action block holds moves of the market alone, the commands outside of blocks are asks, and no block takes the name of what
//! has no moves. What scenarios beside each other show, as definitions over the transcript of a session, and the lines of a grid of them that
//! are not a transcript's. And the commands of a script, one after the other over a session that is lent: the moves of a block and then what
//! is asked for, with the money that the asks show; and a whole script whose lines are let go.
//!
//! `plan_of`, `Plan`; `open_run`, `ScriptRun`; `ScriptRequest`, `FoundRun`, `find_run`; `Status` with `Section`, `MarketKind` and `FileRole`.
//! `Blocks`, `check_shape`, `is_move`, `asked_name`, `BASE`, `TOTAL`, `MOST_EACH`; `open_blocks`, `BlocksStatus`. `Shown`, `value_at`;
//! `label_of`, `asked_of`, `MONEY_PLACES`; `heading`, `worst_lines`. `begun`, `move_and_ask`, `MoneyList`; `play_all`. Functions without a
//! body are laws: their contracts are what is proved of the definitions.
#![tactic(auto)]

mod asking;
mod blocks_rows;
mod blocks_status;
mod counting;
mod finding;
mod grid_laws;
mod grid_lines;
mod grid_rows;
mod kinds;
mod loading;
mod moving;
mod opening;
mod plan;
mod planning;
mod playing;
mod reading;
mod refusals;
mod shape;
mod shape_laws;
mod shape_rows;
mod shown;
mod status;
mod status_rows;
mod step;
mod wanted;
mod worst;

pub use blocks_status::{BlocksStatus, BlocksWords};
pub use finding::{FoundRun, ScriptRequest, find_run};
pub use grid_laws::{
    a_grid_is_that_of_its_parts, a_worst_value_is_the_least, numbers_of_names_change_no_scenario,
    other_names_change_no_scenario, scenarios_are_priced_afresh, scenarios_stand_alone,
};
pub use grid_lines::{MONEY_PLACES, asked_of, heading, label_of, worst_lines};
pub use kinds::{asked_name, is_move};
pub use market_file::{MarketKind, Section};
pub use opening::begun;
pub use plan::{Plan, ScriptRun};
pub use planning::plan_of;
pub use playing::play_all;
pub use reading::open_run;
pub use session_commands::ScriptKind;
pub use shape::{BASE, Blocks, MOST_EACH, TOTAL, check_shape};
pub use shape_laws::a_shape_says_what_it_takes;
pub use shown::{Shown, value_at};
pub use status::{FileRole, Status, StatusWords};
pub use step::{MoneyList, move_and_ask};
pub use wanted::open_blocks;
