// Look-up by index and rebuilding, as definitions, and what is promised of them, for any index and any log; nothing runs here.
#![tactic(auto)]

use refusal::Refusal;
