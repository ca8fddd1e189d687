// What is proved of the definitions, for every bench and every market.
ghost use Rattle.bump_model.specs.Laws.{
  SetBackIsAsBefore,
  RungsLeaveTheMarket,
  LaddersLeaveTheMarket,
  SettingIsMoving,
  LaddersHoldNothing,
};

/// A ladder leaves the market that was before it: each rung sets its quotes back.
pub fn a_ladder_leaves_the_market()
    ensures back { SetBackIsAsBefore }
    ensures rung { RungsLeaveTheMarket }
    ensures ladder { LaddersLeaveTheMarket }
{}

/// Each side is priced in the market in which all quotes of its rung are moved and no other.
pub fn setting_is_moving()
    ensures { SettingIsMoving }
{}

/// A ladder neither freezes nor defers.
pub fn a_ladder_holds_nothing()
    ensures { LaddersHoldNothing }
{}
