// What groups are.
ghost use Rattle.std.specs.Prelude.{◌≡◌, Bool, false, List, map};
ghost use Rattle.std.specs.List.Sorted.{IsPermutation};
ghost use Rattle.chv_agg.specs.Pairs.{collapse, join_each};
ghost use Rattle.chv_agg.specs.States.{join};
ghost use Rattle.chv_group.specs.Collapses.{states_alone, states_row};
ghost use Rattle.chv_group.specs.Groups.{grouped, row_for};
ghost use Rattle.chv_group.specs.Takings.{input_keys};
ghost use Rattle.chv_group.specs.declared.call.AggCall.{AggCall as Call};
ghost use Rattle.chv_group.specs.declared.call.Keyed.{Keyed as Input};
ghost use Rattle.chv_types.specs.Members.{HaveSame, Rises};
ghost use Rattle.chv_types.specs.Order.{row_cmp};
ghost use Rattle.chv_types.specs.declared.value.Value.{Value as SomeValue};

/// There is one row for each key of the inputs, in the order of keys: the key, and what the calls give over its inputs.
pub fn law_groups()
    ensures { (calls : List Call) (inputs : List Input) → (keys : List (List SomeValue)) × Rises row_cmp keys × HaveSame (input_keys inputs) keys
        × (grouped calls inputs false ≡ map (row_for calls inputs) keys) }
{}

/// Groups are the states of the inputs one by one, collapsed, with what the calls give of them.
pub fn law_grouped_collapse()
    ensures { (calls : List Call) (inputs : List Input) → grouped calls inputs false ≡ map (states_row calls) (collapse row_cmp (join_each join) (states_alone calls inputs)) }
{}

/// Groups go by the inputs, not by their order.
pub fn law_grouped_bag()
    ensures { (calls : List Call) (xs ys : List Input) (always : Bool) → IsPermutation xs ys → grouped calls xs always ≡ grouped calls ys always }
{}
