//! The files of the samples. tools/life_files.py writes them, each line with its end.

pub const TABLE_MORT: &'static [u8] = b"\
    age,rate\n\
    20,0.0005\n\
    21,0.00052\n\
    22,0.00058\n\
    23,0.00068\n\
    24,0.00082\n\
    25,0.001\n\
    26,0.00122\n\
    27,0.00148\n\
    28,0.00178\n\
    29,0.00212\n\
    30,0.0025\n\
    31,0.00292\n\
    32,0.00338\n\
    33,0.00388\n\
    34,0.00442\n\
    35,0.005\n\
    36,0.00562\n\
    37,0.00628\n\
    38,0.00698\n\
    39,0.00772\n\
    40,0.0085\n\
    41,0.00932\n\
    42,0.01018\n\
    43,0.01108\n\
    44,0.01202\n\
    45,0.013\n\
    46,0.01402\n\
    47,0.01508\n\
    48,0.01618\n\
    49,0.01732\n\
    50,0.0185\n\
    51,0.01972\n\
    52,0.02098\n\
    53,0.02228\n\
    54,0.02362\n\
    55,0.025\n\
    56,0.02642\n\
    57,0.02788\n\
    58,0.02938\n\
    59,0.03092\n\
    60,0.0325\n\
    61,0.03412\n\
    62,0.03578\n\
    63,0.03748\n\
    64,0.03922\n\
    65,0.041\n\
    66,0.04282\n\
    67,0.04468\n\
    68,0.04658\n\
    69,0.04852\n\
    70,0.0505\n\
    71,0.05252\n\
    72,0.05458\n\
    73,0.05668\n\
    74,0.05882\n\
    75,0.061\n\
    76,0.06322\n\
    77,0.06548\n\
    78,0.06778\n\
    79,0.07012\n\
    80,0.0725\n\
    81,0.07492\n\
    82,0.07738\n\
    83,0.07988\n\
    84,0.08242\n\
    85,0.085\n\
    86,0.08762\n\
    87,0.09028\n\
    88,0.09298\n\
    89,0.09572\n\
    90,0.0985\n\
    91,0.10132\n\
    92,0.10418\n\
    93,0.10708\n\
    94,0.11002\n\
    95,0.113\n\
    96,0.11602\n\
    97,0.11908\n\
    98,0.12218\n\
    99,0.12532\n\
    100,0.1285\n";

pub const TABLE_DISC: &'static [u8] = b"\
    year,zero\n\
    0,0.01\n\
    1,0.0101\n\
    2,0.0102\n\
    3,0.0103\n\
    4,0.0104\n\
    5,0.0105\n\
    6,0.0106\n\
    7,0.0107\n\
    8,0.0108\n\
    9,0.0109\n\
    10,0.011\n\
    11,0.0111\n\
    12,0.0112\n\
    13,0.0113\n\
    14,0.0114\n\
    15,0.0115\n\
    16,0.0116\n\
    17,0.0117\n\
    18,0.0118\n\
    19,0.0119\n\
    20,0.012\n\
    21,0.0121\n\
    22,0.0122\n\
    23,0.0123\n\
    24,0.0124\n\
    25,0.0125\n\
    26,0.0126\n\
    27,0.0127\n\
    28,0.0128\n\
    29,0.0129\n\
    30,0.013\n\
    31,0.0131\n\
    32,0.0132\n\
    33,0.0133\n\
    34,0.0134\n\
    35,0.0135\n\
    36,0.0136\n\
    37,0.0137\n\
    38,0.0138\n\
    39,0.0139\n\
    40,0.014\n\
    41,0.0141\n\
    42,0.0142\n\
    43,0.0143\n\
    44,0.0144\n\
    45,0.0145\n\
    46,0.0146\n\
    47,0.0147\n\
    48,0.0148\n\
    49,0.0149\n\
    50,0.015\n\
    51,0.0151\n\
    52,0.0152\n\
    53,0.0153\n\
    54,0.0154\n\
    55,0.0155\n\
    56,0.0156\n\
    57,0.0157\n\
    58,0.0158\n\
    59,0.0159\n\
    60,0.016\n\
    61,0.0161\n\
    62,0.0162\n\
    63,0.0163\n\
    64,0.0164\n\
    65,0.0165\n\
    66,0.0166\n\
    67,0.0167\n\
    68,0.0168\n\
    69,0.0169\n\
    70,0.017\n\
    71,0.0171\n\
    72,0.0172\n\
    73,0.0173\n\
    74,0.0174\n\
    75,0.0175\n\
    76,0.0176\n\
    77,0.0177\n\
    78,0.0178\n\
    79,0.0179\n\
    80,0.018\n";

pub const SPACE_BASE: &'static [u8] = b"\
    cells Base.proj_len() = 12 * policy_term + 1\n\
    cells Base.duration(t) = t // 12\n\
    cells Base.age(t) = age_at_entry + duration(t)\n\
    cells Base.mort_rate(t) = mort[age(t), \"rate\"]\n\
    cells Base.mort_rate_mth(t) = mort_rate(t) / 12\n\
    cells Base.lapse_rate(t) = max(0.1 - 0.02 * duration(t), 0.02)\n\
    cells Base.lapse_rate_mth(t) = lapse_rate(t) / 12\n\
    cells Base.pols_if_init() = fixed(policy_count)\n\
    cells Base.pols_if(t) = pols_if_init() if t == 0 else pols_if(t - 1) - pols_lapse(t - 1) - pols_death(t - 1) - pols_maturity(t)\n\
    cells Base.pols_death(t) = pols_if(t) * mort_rate_mth(t)\n\
    cells Base.pols_lapse(t) = (pols_if(t) - pols_death(t)) * lapse_rate_mth(t)\n\
    cells Base.pols_maturity(t) = pols_if(t - 1) - pols_lapse(t - 1) - pols_death(t - 1) if t == 12 * policy_term else 0.0\n\
    cells Base.inflation_mth() = nroot(1 + inflation_rate, 12)\n\
    cells Base.inflation_factor(t) = 1.0 if t == 0 else inflation_factor(t - 1) * inflation_mth()\n\
    cells Base.disc_rate(t) = disc[duration(t), \"zero\"]\n\
    cells Base.disc_mth(t) = nroot(1 + disc_rate(t), 12)\n\
    cells Base.disc_factor(t) = 1.0 if t == 0 else disc_factor(t - 1) / disc_mth(t - 1)\n\
    cells Base.maint(t) = pols_if(t) * expense_maint / 12 * inflation_factor(t)\n\
    cells Base.expenses(t) = expense_acq * pols_if_init() + maint(t) if t == 0 else maint(t)\n\
    cells Base.pv_pols_if() = sum(pols_if(t) * disc_factor(t) for t in range(proj_len()))\n\
    cells Base.pv_premiums() = sum(premiums(t) * disc_factor(t) for t in range(proj_len()))\n\
    cells Base.pv_claims() = sum(claims(t) * disc_factor(t) for t in range(proj_len()))\n\
    cells Base.pv_expenses() = sum(expenses(t) * disc_factor(t) for t in range(proj_len()))\n\
    cells Base.pv_commissions() = sum(commissions(t) * disc_factor(t) for t in range(proj_len()))\n";

pub const TERM_MODEL: &'static [u8] = b"\
    mx project 1\n\
    space Base\n\
    space Term\n\
    bases Term: Base\n\
    table mort\n\
    table disc\n";

pub const TERM_SPACE: &'static [u8] = b"\
    cells Term.claims(t) = sum_assured * pols_death(t)\n\
    cells Term.net_premium_pp() = pv_claims() / pv_pols_if()\n\
    cells Term.premium_pp() = round((1 + loading_prem) * net_premium_pp(), 2)\n\
    cells Term.premiums(t) = premium_pp() * pols_if(t)\n\
    cells Term.commissions(t) = premiums(t) if duration(t) == 0 else 0.0\n\
    cells Term.net_cf(t) = premiums(t) - claims(t) - expenses(t) - commissions(t)\n\
    cells Term.pv_net_cf() = pv_premiums() - pv_claims() - pv_expenses() - pv_commissions()\n\
    cells Term.result_names() = (\"pols_if\", \"premiums\", \"claims\", \"expenses\", \"commissions\", \"net_cf\")\n\
    cells Term.result_cf(t) = (pols_if(t), premiums(t), claims(t), expenses(t), commissions(t), net_cf(t))\n\
    cells Term.result_pv() = (pv_pols_if(), pv_premiums(), pv_claims(), pv_expenses(), pv_commissions(), pv_net_cf())\n\
    cells Term.policy() = (\"term\", policy_term, policy_count, sum_assured, expense_acq, expense_maint, inflation_rate, loading_prem)\n\
    params Term(age_at_entry, policy_term, sum_assured, policy_count=1)\n";

pub const TERM_REFS: &'static [u8] = b"\
    ref Base.mort = table mort\n\
    ref Base.disc = table disc\n\
    ref Base.expense_acq = 300\n\
    ref Base.expense_maint = 60\n\
    ref Base.inflation_rate = 0.01\n\
    ref Term.age_at_entry = 30\n\
    ref Term.policy_term = 10\n\
    ref Term.sum_assured = 100000\n\
    ref Term.policy_count = 1\n\
    ref Term.loading_prem = 0.5\n";

pub const SAVINGS_MODEL: &'static [u8] = b"\
    mx project 1\n\
    space Base\n\
    space Savings\n\
    bases Savings: Base\n\
    table mort\n\
    table disc\n";

pub const SAVINGS_SPACE: &'static [u8] = b"\
    cells Savings.premium_pp(t) = fixed(single_premium) if t == 0 else 0.0\n\
    cells Savings.av_pp(t) = 0.0 if t == 0 else av_end_pp(t - 1)\n\
    cells Savings.av_in_pp(t) = av_pp(t) + premium_pp(t) * (1 - load_prem_rate)\n\
    cells Savings.fee_pp(t) = av_in_pp(t) * fee_rate\n\
    cells Savings.coi_pp(t) = max(sum_assured - av_in_pp(t), 0.0) * mort_rate_mth(t)\n\
    cells Savings.inv_mth() = nroot(1 + inv_rate, 12) - 1\n\
    cells Savings.inv_pp(t) = (av_in_pp(t) - fee_pp(t) - coi_pp(t)) * inv_mth()\n\
    cells Savings.av_end_pp(t) = av_in_pp(t) - fee_pp(t) - coi_pp(t) + inv_pp(t)\n\
    cells Savings.premiums(t) = premium_pp(t) * pols_if(t)\n\
    cells Savings.claims(t) = max(sum_assured, av_in_pp(t)) * pols_death(t)\n\
    cells Savings.surrenders(t) = av_end_pp(t) * pols_lapse(t)\n\
    cells Savings.maturities(t) = av_pp(t) * pols_maturity(t)\n\
    cells Savings.commissions(t) = premiums(t) * 0.05\n\
    cells Savings.net_cf(t) = premiums(t) - claims(t) - surrenders(t) - maturities(t) - expenses(t) - commissions(t)\n\
    cells Savings.pv_surrenders() = sum(surrenders(t) * disc_factor(t) for t in range(proj_len()))\n\
    cells Savings.pv_maturities() = sum(maturities(t) * disc_factor(t) for t in range(proj_len()))\n\
    cells Savings.pv_net_cf() = pv_premiums() - pv_claims() - pv_surrenders() - pv_maturities() - pv_expenses() - pv_commissions()\n\
    cells Savings.result_names() = (\"pols_if\", \"av_pp\", \"premiums\", \"claims\", \"surrenders\", \"maturities\", \"expenses\", \"commissions\", \"net_cf\")\n\
    cells Savings.result_cf(t) = (pols_if(t), av_pp(t), premiums(t), claims(t), surrenders(t), maturities(t), expenses(t), commissions(t), net_cf(t))\n\
    cells Savings.result_pv() = (pv_pols_if(), 0.0, pv_premiums(), pv_claims(), pv_surrenders(), pv_maturities(), pv_expenses(), pv_commissions(), pv_net_cf())\n\
    cells Savings.policy() = (\"savings\", policy_term, policy_count, sum_assured, expense_acq, expense_maint, inflation_rate, single_premium, load_prem_rate, fee_rate, inv_rate)\n\
    params Savings(age_at_entry, policy_term, sum_assured, single_premium, policy_count=1)\n";

pub const SAVINGS_REFS: &'static [u8] = b"\
    ref Base.mort = table mort\n\
    ref Base.disc = table disc\n\
    ref Base.expense_acq = 300\n\
    ref Base.expense_maint = 60\n\
    ref Base.inflation_rate = 0.01\n\
    ref Savings.age_at_entry = 40\n\
    ref Savings.policy_term = 10\n\
    ref Savings.sum_assured = 500000\n\
    ref Savings.single_premium = 450000\n\
    ref Savings.policy_count = 100\n\
    ref Savings.load_prem_rate = 0.05\n\
    ref Savings.fee_rate = 0.0005\n\
    ref Savings.inv_rate = 0.02\n";
